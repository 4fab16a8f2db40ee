// Tests 5, 6, 8, 9 and 16: fields outside their ranges, and rows and gauges that break their rules.
ghost use Rattle.std.specs.Prelude.{not, ◌≡◌, List, ℕ, ◌<◌, get_or};
ghost use Rattle.std.specs.Bool.{then_some};
ghost use Rattle.model.specs.Ranges.{◌to◌, any_outside, header_ranges, reach_ranges, reach_section};
ghost use Rattle.lists.specs.Lists.{not_rising};
ghost use Rattle.model.specs.Sheet.{edition, header, steps_m, reach_count, reach_fields};
ghost use Rattle.model.specs.Refusals as Document;
ghost use Rattle.model.specs.Refusals.{test_each};
ghost use Rattle.model.specs.Load.{starts_late, row_fault, gauge_fault, flow_row_fault};
ghost use Rattle.terms.specs.Says.{fault_number, finding_says};
ghost use Rattle.limits.specs.Says.{range_says};
ghost use Rattle.sheet.specs.Entries.{Before, IsRow, IsGauge, number_of, count_of, rising_of, fault_of};

use crate::fields::{
    dt, dx, flow_row_count, flow_row_start, flow_row_top, gauge, gauge_count, interval,
    reach_count, reach_field, row_concentration, row_count, row_start, steps, top_flow,
};
use limits::{
    AREA, CONCENTRATION, DISPERSION, DT, DX, FLOW, KD, RATE, REACH_WIDTH, RHO, Range, SEGMENTS,
    STEPS, outside,
};
use terms::{Fault, Place, Refusal};

// 5. "A header field is outside its range."
pub fn header_fault(sheet: &[u8]) -> bool
    ensures { let s = sheet.now in result ≡ any_outside (header_ranges (steps_m s)) (header s) }
{
    let most = steps(sheet);
    outside(DT, u64::from(dt(sheet)))
        | outside(DX, u64::from(dx(sheet)))
        | outside(STEPS, u64::from(most))
        | outside(Range { low: 1, high: most }, u64::from(interval(sheet)))
        | outside(FLOW, u64::from(top_flow(sheet)))
}

// A reach's fields, in the sheet's order.
const REACH_RANGES: [Range; REACH_WIDTH] = [
    SEGMENTS,
    DISPERSION,
    AREA, // channel
    AREA, // storage
    RATE, // ALPHA
    FLOW, // qin
    FLOW, // qout
    CONCENTRATION, // CL
    RATE, // LAMBDA
    RATE, // LAMBDA2
    RATE, // LAMHAT
    RATE, // LAMHAT2
    RHO,
    KD,
    CONCENTRATION, // CB
    CONCENTRATION, // start figure
];

// A field of reach i is outside its range.
// A `for` and no `any`: it was tried, and the closure's goal did not close.
pub fn reach_fault(sheet: &[u8], i: usize) -> bool
    ensures { result ≡ any_outside (reach_ranges (edition sheet.now)) (reach_fields sheet.now i) }
{
    for k in 0..REACH_WIDTH {
        if outside(REACH_RANGES[k], u64::from(reach_field(sheet, i, k))) {
            return true;
        }
    }
    false
}

// 6. "A reach field is outside its range (reach)."
pub fn reach_test(sheet: &[u8]) -> Result<(), Refusal>
    ensures { let s = sheet.now in finding_says result ≡ test_each 6 Document.reach (reach_count s)
        (λ i. any_outside (reach_ranges (edition s)) (reach_fields s i)) }
{
    let count = reach_count(sheet);
    for i in 0..count {
        if reach_fault(sheet, i as usize) {
            return Err(Fault::ReachField.at(Place::Reach(i + 1)));
        }
    }
    Ok(())
}

// "strictly rising": an entry that is not above the one before it, which the first one has not.
fn not_rising(before: Option<u32>, value: u32) -> bool
    ensures { (list : List ℕ) (j : ℕ) → Before list j before → get_or list j 0 ≡ value → result ≡ not_rising list j }
{
    match before {
        None => false,
        Some(before) => value <= before,
    }
}

// The first row starts at 0, another behind the row before it.
fn starts_late(before: Option<u32>, start: u32) -> bool
    ensures { (starts : List ℕ) (j : ℕ) → Before starts j before → get_or starts j 0 ≡ start → result ≡ starts_late starts j }
{
    match before {
        None => start != 0,
        Some(before) => start <= before,
    }
}

// A row breaks its rule on starts, which rise to at most M, or its concentration is outside its range.
pub fn row_fault(steps: u32, before: Option<u32>, start: u32, concentration: u32) -> bool
    ensures { (starts concentrations : List ℕ) (j : ℕ) → IsRow starts concentrations j before start concentration → result ≡ row_fault steps
        starts concentrations j }
{
    starts_late(before, start) | (steps < start) | outside(CONCENTRATION, u64::from(concentration))
}

// A gauge of a river of n segments is none of its segments, or not behind the gauge before it.
fn gauge_fault(segments: usize, before: Option<u32>, gauge: u32) -> bool
    ensures { (gauges : List ℕ) (j : ℕ) → IsGauge gauges j before gauge → result ≡ gauge_fault segments gauges j }
{
    (gauge < 1) | (segments < gauge as usize) | not_rising(before, gauge)
}

// A flow row starts outside 1 to M or not behind the row before it, or its flow is outside its range.
fn flow_row_fault(steps: u32, before: Option<u32>, start: u32, top: u32) -> bool
    ensures { (starts tops : List ℕ) (j : ℕ) → IsRow starts tops j before start top → result ≡ flow_row_fault steps starts tops j }
{
    let late = outside(
        Range {
            low: 1,
            high: steps,
        },
        u64::from(start),
    );
    late | not_rising(before, start) | outside(FLOW, u64::from(top))
}

// Entries whose first fields are to rise, and how high: start steps of boundary rows or of flow rows to M, gauges to the last segment.
// An enum and no trait: its three kinds are the cases of the definitions as well (specs/Entries).
#[derive(Clone, Copy)]
pub enum Entries {
    Rows(u32),
    Gauges(usize),
    FlowRows(u32),
}

impl Entries {
    // The fault that their test finds.
    fn fault(self) -> Fault
        ensures { fault_number result ≡ number_of self }
    {
        match self {
            Entries::Rows(_) => Fault::BoundaryRow,
            Entries::Gauges(_) => Fault::Gauge,
            Entries::FlowRows(_) => Fault::FlowRow,
        }
    }

    fn count(self, sheet: &[u8]) -> u32
        ensures { result ≡ count_of self sheet.now }
    {
        match self {
            Entries::Rows(_) => row_count(sheet),
            Entries::Gauges(_) => gauge_count(sheet),
            Entries::FlowRows(_) => flow_row_count(sheet),
        }
    }

    // The first field of entry j, where `before` is that of the entry before it; None where the entry breaks its rule.
    fn rising(self, sheet: &[u8], j: u32, before: Option<u32>) -> Option<u32>
        requires { j < count_of self sheet.now }
        ensures { let s = sheet.now in Before (rising_of self s) j before → result ≡ then_some (not (fault_of self s j)) (get_or (rising_of self s) j 0) }
    {
        let i = j as usize;
        match self {
            Entries::Rows(steps) => {
                let first = row_start(sheet, i);
                let fault = row_fault(steps, before, first, row_concentration(sheet, i));
                (!fault).then_some(first)
            }
            Entries::Gauges(segments) => {
                let first = gauge(sheet, i);
                let fault = gauge_fault(segments, before, first);
                (!fault).then_some(first)
            }
            Entries::FlowRows(steps) => {
                let first = flow_row_start(sheet, i);
                let fault = flow_row_fault(steps, before, first, flow_row_top(sheet, i));
                (!fault).then_some(first)
            }
        }
    }
}

// 8. "A boundary row breaks its rule on starts, or its concentration is outside its range (row)", 9. "A gauge breaks its rule (row)",
// 16. "a flow row breaks its rule (row)".
pub fn entries_test(sheet: &[u8], entries: Entries) -> Result<(), Refusal>
    ensures { let s = sheet.now in finding_says result ≡ test_each (number_of entries) Document.row (count_of entries s) (fault_of entries s) }
{
    let mut before = None;
    for j in 0..entries.count(sheet) {
        let Some(first) = entries.rising(sheet, j, before) else {
            return Err(entries.fault().at(Place::Row(j + 1)));
        };
        before = Some(first);
    }
    Ok(())
}
