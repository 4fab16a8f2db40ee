// A loading over plain lists: any bytes in, half-step numbers or a numbered refusal out. Of the list of reach records it is handed the length.
#![tactic(auto)]

ghost use Rattle.std.specs.Prelude.{◌≡◌, map, length};
ghost use Rattle.model.specs.State.{Columns, column_lists, loaded_segments, write_segments};
ghost use Rattle.model.specs.Refusals.{first};
ghost use Rattle.model.specs.Load.{sheet_tests, river_tests, list_tests, loaded, load_answer, load_columns};
ghost use Rattle.terms.specs.Says.{finding_says};
ghost use Rattle.terms.specs.Lent.{columns_lent, SameColumns};
ghost use Rattle.course.specs.Segments.{Read};
ghost use Rattle.assembly.specs.Says.{loaded_says, load_says};
ghost use Rattle.assembly.specs.Fit.{Fit};

use bands::bands_test;
use columns::fill;
use course::{SegmentTest, flows_test};
use limits::MOST_SEGMENTS;
use lists::any_short;
use sheet::editions::edition;
use sheet::faults::{Entries, entries_test, header_fault, reach_test};
use sheet::fields::{
    flow_row_count, flow_rows_at, gauge_count, gauges_at, interval, reach_count, row_count,
    rows_at, segment_count, steps,
};
use sheet::walks::{sheet_end, walk};
use terms::{ColumnsMut, Fault, Refusal};

// "Its result also gives M, the print interval, the segment count, and where the rows and the gauges begin on the sheet and how many
// there are", and "where the flow rows begin and how many there are".
#[derive(Clone, Copy, Debug, PartialEq, Eq)]
pub struct Loaded {
    pub steps: u32,
    pub interval: u32,
    pub segments: u32,
    pub rowsat: u32,
    pub rows: u32,
    pub gaugesat: u32,
    pub gauges: u32,
    pub flowrowsat: u32,
    pub flowrows: u32,
}

// "Tests run in the order of their numbers", 2 and 3 on one walk, "16 .. after 9", "19 .. after 16": those of the sheet's own fields.
#[tactic(auto, using(crate::proofs::TestsInTurn::in_turn), unfolding(model::specs::Load::sheet_tests))]
fn sheet_test(sheet: &[u8]) -> Result<(), Refusal>
    ensures { finding_says result ≡ first (sheet_tests sheet.now) }
{
    Fault::Mark.test(edition(sheet).is_none())?;
    walk(sheet)?;
    Fault::BytesFollow.test(sheet_end(sheet) < sheet.len())?;
    Fault::HeaderField.test(header_fault(sheet))?;
    reach_test(sheet)?;
    Fault::SegmentCount.test((MOST_SEGMENTS as usize) < segment_count(sheet))?;
    entries_test(sheet, Entries::Rows(steps(sheet)))?;
    entries_test(sheet, Entries::Gauges(segment_count(sheet)))?;
    entries_test(sheet, Entries::FlowRows(steps(sheet)))?;
    bands_test(sheet)
}

// The tests of a sheet by itself: 1 to 12, with 2 and 3 as one, 16 and 19. The first of them that fails decides.
#[tactic(auto, using(crate::proofs::LoadTests::each_flow))]
pub fn river_test(sheet: &[u8]) -> Result<(), Refusal>
    ensures { finding_says result ≡ first (river_tests sheet.now) }
{
    sheet_test(sheet)?;
    let n = segment_count(sheet);
    flows_test(sheet, n, SegmentTest::Flow)?;
    flows_test(sheet, n, SegmentTest::Face)?;
    flows_test(sheet, n, SegmentTest::HalfStepSum)
}

// Test 13 of a loading by lengths alone: `row` is the flow row's number, `records` the length of the list of reach records, `lengths` those of the
// fourteen lists.
pub fn lengths_test(
    sheet: &[u8],
    row: u32,
    records: usize,
    lengths: &[usize],
) -> Result<(), Refusal>
    ensures { (x : Columns) → map length (column_lists x) ≡ lengths.now →
        finding_says result ≡ first (list_tests sheet.now row records x) }
{
    let short = any_short(segment_count(sheet), lengths);
    Fault::ListLength.test(
        (flow_row_count(sheet) < row) | short | (records < reach_count(sheet) as usize),
    )
}

// Test 13 of a loading.
// The sheet, the row and the columns go side by side, here and below, as document 01's call is lent them.
pub fn list_test(
    sheet: &[u8],
    row: u32,
    records: usize,
    columns: &ColumnsMut,
) -> Result<(), Refusal>
    ensures { finding_says result ≡ first (list_tests sheet.now row records (columns_lent columns.now)) }
{
    lengths_test(
        sheet,
        row,
        records,
        &[
            columns.e.len(),
            columns.g.len(),
            columns.l.len(),
            columns.a.len(),
            columns.b.len(),
            columns.k.len(),
            columns.ks.len(),
            columns.h.len(),
            columns.m.len(),
            columns.s.len(),
            columns.cl.len(),
            columns.cb.len(),
            columns.kd.len(),
            columns.start.len(),
        ],
    )
}

impl Loaded {
    // What an accepted loading answers.
    #[tactic(auto, using(crate::proofs::LoadTests::places), unfolding(model::specs::Load::loaded))]
    fn read(sheet: &[u8], n: usize) -> Loaded
        requires { Read sheet.now n }
        ensures { loaded_says result ≡ loaded sheet.now }
    {
        Loaded {
            steps: steps(sheet),
            interval: interval(sheet),
            segments: n as u32,
            rowsat: rows_at(sheet) as u32,
            rows: row_count(sheet),
            gaugesat: gauges_at(sheet) as u32,
            gauges: gauge_count(sheet),
            flowrowsat: flow_rows_at(sheet) as u32,
            flowrows: flow_row_count(sheet),
        }
    }

    // What a loading or an opening whose tests pass does: each list's first entries are written, with the set of that row's flow.
    pub fn written(sheet: &[u8], row: u32, columns: &mut ColumnsMut) -> Loaded
        requires { Fit sheet.now row (columns_lent columns.old) }
        ensures values { loaded_says result ≡ loaded sheet.now }
        ensures same { SameColumns columns.old columns.new }
        ensures lists { columns_lent columns.new ≡ write_segments (loaded_segments sheet.now row) (columns_lent columns.old) }
    {
        let n = segment_count(sheet);
        fill(sheet, row, n, columns);
        Loaded::read(sheet, n)
    }

    // A loading: its tests on any bytes, any number of a flow row and any lists; where all pass, each list's first entries are written,
    // with the set of that row's flow, otherwise nothing.
    #[tactic(auto, using(crate::proofs::LoadTests::decided), unfolding(model::specs::Load::load_tests, model::specs::Load::load_answer, model::specs::Load::load_columns))]
    pub fn assemble(
        sheet: &[u8],
        row: u32,
        records: usize,
        columns: &mut ColumnsMut,
    ) -> Result<Loaded, Refusal>
        ensures answer { load_says result ≡ load_answer sheet.now row records (columns_lent columns.old) }
        ensures same { SameColumns columns.old columns.new }
        ensures lists { columns_lent columns.new ≡ load_columns sheet.now row records (columns_lent columns.old) }
    {
        river_test(sheet)?;
        list_test(sheet, row, records, columns)?;
        Ok(Loaded::written(sheet, row, columns))
    }
}
