// A sheet's fields, read where the documents put them. Bytes past the end count as 0, so that every reading is defined for every sheet.
ghost use Rattle.std.specs.Prelude.{◌≡◌, ℕ, true, ◌+◌, ◌*◌, ◌^◌, ◌<◌, leb, get_or};
ghost use Rattle.model.specs.Ranges.{reach_section, row_section, gauge_section};
ghost use Rattle.model.specs.Sheet as Document;
ghost use Rattle.model.specs.Sheet.{flow_row_count_at, flow_row_count, flow_row_start, flow_row_top, band_count_at};
ghost use Rattle.model.specs.Load.{loaded};
ghost use Rattle.model.specs.Flow.{top_of, flow_in_force};
ghost use Rattle.model.specs.Sheet.{field, header_field, dt, dx, steps_m, interval, top_flow, record_field, reach_on, segment_count};
ghost use Rattle.model.specs.Sheet.{reach_count_at, row_count_at, gauge_count_at, reach_count, row_count, gauge_count};
ghost use Rattle.terms.specs.Says.{reach_says};
ghost use Rattle.limits.specs.Says.{section_says};

use crate::editions::{Mark, edition};
use crate::layout::{REACH_COUNT_AT, SIZE, section_end};
use limits::{FLOW_ROWS, GAUGES, REACHES, ROWS, Section};
use terms::Reach;

// One byte, of a place past the end 0.
fn byte(sheet: &[u8], at: usize) -> u8
    ensures { result ≡ get_or sheet.now at 0 }
{
    sheet.get(at).copied().unwrap_or(0)
}

// "All fields are unsigned 32-bit, little-endian": the field whose first byte is byte number `at`.
pub fn field(sheet: &[u8], at: usize) -> u32
    ensures { result ≡ field sheet.now at }
{
    if sheet.len() <= at {
        return 0;
    }
    // At once where all four bytes are there, as on any accepted sheet: byte by byte, a loading with bands took twice the instructions.
    if 4 <= sheet.len() - at {
        return u32::from_le_bytes([sheet[at], sheet[at + 1], sheet[at + 2], sheet[at + 3]]);
    }
    u32::from_le_bytes([
        byte(sheet, at),
        byte(sheet, at.saturating_add(1)),
        byte(sheet, at.saturating_add(2)),
        byte(sheet, at.saturating_add(3)),
    ])
}

// Field k of record i of a section whose count stands at count_at.
pub fn record_field(sheet: &[u8], count_at: usize, section: Section, i: usize, k: usize) -> u32
    ensures { result ≡ record_field sheet.now count_at (section_says section) i k }
{
    let before = (section.width as usize).saturating_mul(i).saturating_add(k);
    field(
        sheet,
        count_at
            .saturating_add(SIZE)
            .saturating_add(before.saturating_mul(SIZE)),
    )
}

// Field k of the header. The five readers behind it, and those of a section's fields below, differ in a number or two alone, and stay: their names are
// the documents', which tell a caller more than a number does.
pub fn header_field(sheet: &[u8], k: usize) -> u32
    ensures { result ≡ header_field sheet.now k }
{
    field(sheet, k.saturating_mul(SIZE).saturating_add(SIZE))
}

pub fn dt(sheet: &[u8]) -> u32
    ensures { result ≡ dt sheet.now }
{
    header_field(sheet, 0)
}

pub fn dx(sheet: &[u8]) -> u32
    ensures { result ≡ dx sheet.now }
{
    header_field(sheet, 1)
}

// M.
pub fn steps(sheet: &[u8]) -> u32
    ensures { result ≡ steps_m sheet.now }
{
    header_field(sheet, 2)
}

pub fn interval(sheet: &[u8]) -> u32
    ensures { result ≡ interval sheet.now }
{
    header_field(sheet, 3)
}

pub fn top_flow(sheet: &[u8]) -> u32
    ensures { result ≡ top_flow sheet.now }
{
    header_field(sheet, 4)
}

// Where the counts of rows, gauges and flow rows stand: all far below the highest usize.
pub fn row_count_at(sheet: &[u8]) -> usize
    ensures { (result ≡ row_count_at sheet.now) × (result < 2 ^ 40) }
{
    section_end(sheet, REACH_COUNT_AT, REACHES)
}

pub fn gauge_count_at(sheet: &[u8]) -> usize
    ensures { (result ≡ gauge_count_at sheet.now) × (result < 2 ^ 41) }
{
    section_end(sheet, row_count_at(sheet), ROWS)
}

// Behind the last gauge, whether flow rows follow or not.
fn flow_row_count_at(sheet: &[u8]) -> usize
    ensures { (result ≡ flow_row_count_at sheet.now) × (result < 2 ^ 42) }
{
    section_end(sheet, gauge_count_at(sheet), GAUGES)
}

// Behind the last flow row, on a sheet that has them: the count of the first reach's bands.
pub fn band_count_at(sheet: &[u8]) -> usize
    ensures { (leb 3 (Document.edition sheet.now) ≡ true → result ≡ band_count_at sheet.now 0) × (result < 2 ^ 43) }
{
    section_end(sheet, flow_row_count_at(sheet), FLOW_ROWS)
}

pub fn reach_count(sheet: &[u8]) -> u32
    ensures { result ≡ reach_count sheet.now }
{
    field(sheet, REACH_COUNT_AT)
}

pub fn row_count(sheet: &[u8]) -> u32
    ensures { result ≡ row_count sheet.now }
{
    field(sheet, row_count_at(sheet))
}

pub fn gauge_count(sheet: &[u8]) -> u32
    ensures { result ≡ gauge_count sheet.now }
{
    field(sheet, gauge_count_at(sheet))
}

// 0 on a sheet without flow rows.
pub fn flow_row_count(sheet: &[u8]) -> u32
    ensures { result ≡ flow_row_count sheet.now }
{
    if edition(sheet) < Some(Mark::Otr2) {
        return 0;
    }
    field(sheet, flow_row_count_at(sheet))
}

// Where the rows and the gauges begin: the first byte behind their count.
pub fn rows_at(sheet: &[u8]) -> usize
    ensures { result ≡ row_count_at sheet.now + 4 }
{
    row_count_at(sheet) + SIZE
}

pub fn gauges_at(sheet: &[u8]) -> usize
    ensures { result ≡ gauge_count_at sheet.now + 4 }
{
    gauge_count_at(sheet) + SIZE
}

// 0 on a sheet without flow rows.
pub fn flow_rows_at(sheet: &[u8]) -> usize
    ensures { result ≡ (loaded sheet.now).flow_rows_at }
{
    if edition(sheet) < Some(Mark::Otr2) {
        return 0;
    }
    flow_row_count_at(sheet) + SIZE
}

// Field k of reach i, on a sheet of any edition; reaches, rows and gauges count from 0 here.
pub fn reach_field(sheet: &[u8], i: usize, k: usize) -> u32
    ensures { (edition : ℕ) → result ≡ record_field sheet.now reach_count_at (reach_section edition) i k }
{
    record_field(sheet, REACH_COUNT_AT, REACHES, i, k)
}

pub fn reach(sheet: &[u8], i: usize) -> Reach
    ensures { reach_says result ≡ reach_on sheet.now i }
{
    Reach {
        segments: reach_field(sheet, i, 0),
        dispersion: reach_field(sheet, i, 1),
        area: reach_field(sheet, i, 2),
        area2: reach_field(sheet, i, 3),
        alpha: reach_field(sheet, i, 4),
        qin: reach_field(sheet, i, 5),
        qout: reach_field(sheet, i, 6),
        cl: reach_field(sheet, i, 7),
        lambda: reach_field(sheet, i, 8),
        lambda2: reach_field(sheet, i, 9),
        lamhat: reach_field(sheet, i, 10),
        lamhat2: reach_field(sheet, i, 11),
        rho: reach_field(sheet, i, 12),
        kd: reach_field(sheet, i, 13),
        cb: reach_field(sheet, i, 14),
        start: reach_field(sheet, i, 15),
    }
}

pub fn row_start(sheet: &[u8], j: usize) -> u32
    ensures { result ≡ record_field sheet.now (row_count_at sheet.now) row_section j 0 }
{
    record_field(sheet, row_count_at(sheet), ROWS, j, 0)
}

pub fn row_concentration(sheet: &[u8], j: usize) -> u32
    ensures { result ≡ record_field sheet.now (row_count_at sheet.now) row_section j 1 }
{
    record_field(sheet, row_count_at(sheet), ROWS, j, 1)
}

// Gauge j, a segment's number.
pub fn gauge(sheet: &[u8], j: usize) -> u32
    ensures { result ≡ record_field sheet.now (gauge_count_at sheet.now) gauge_section j 0 }
{
    record_field(sheet, gauge_count_at(sheet), GAUGES, j, 0)
}

// Flow row r, which counts from 0 here.
pub fn flow_row_start(sheet: &[u8], r: usize) -> u32
    ensures { result ≡ flow_row_start sheet.now r }
{
    record_field(sheet, flow_row_count_at(sheet), FLOW_ROWS, r, 0)
}

pub fn flow_row_top(sheet: &[u8], r: usize) -> u32
    ensures { result ≡ flow_row_top sheet.now r }
{
    record_field(sheet, flow_row_count_at(sheet), FLOW_ROWS, r, 1)
}

// Flow r at the top, "a flow row's number (0 for the top flow ..)".
pub fn top_of(sheet: &[u8], r: u32) -> u32
    ensures { result ≡ top_of sheet.now r }
{
    if r == 0 {
        return top_flow(sheet);
    }
    flow_row_top(sheet, r as usize - 1)
}

// The number of the flow in force at step j: the last row that starts at or before it, 0 where none does. Of a sheet that no loading accepts
// it is that of the rows that its count names, and bytes past the end count as 0.
pub fn flow_in_force(sheet: &[u8], j: u32) -> u32
    ensures { result ≡ flow_in_force sheet.now j }
{
    for r in (1..=flow_row_count(sheet)).rev() {
        if flow_row_start(sheet, r as usize - 1) <= j {
            return r;
        }
    }
    0
}

// The segments of all reaches together. A reach past the sheet's end has none, so the sum may stop there.
pub fn segment_count(sheet: &[u8]) -> usize
    ensures { result ≡ segment_count sheet.now }
{
    let count = (reach_count(sheet) as usize).min(sheet.len());
    let mut total: usize = 0;
    for i in 0..count {
        total += reach_field(sheet, i, 0) as usize;
    }
    total
}
