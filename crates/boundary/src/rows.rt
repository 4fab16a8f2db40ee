// "U at a step is found by a call of its own from lent rows and M".
ghost use Rattle.std.specs.Prelude.{◌≡◌, not, ◌||◌, ◌≤◌, eqb, length};
ghost use Rattle.model.specs.Ranges.{row_section, outside};
ghost use Rattle.model.specs.Refusals.{row, first, test_each};
ghost use Rattle.model.specs.Load.{row_fault};
ghost use Rattle.model.specs.Upstream.{upstream_at, upstream_tests, upstream_answer};
ghost use Rattle.terms.specs.Says.{finding_says};
ghost use Rattle.boundary.specs.Says.{upstream_says};

use limits::{ROWS, outside};
use sheet::faults::row_fault;
use terms::{Fault, Place, Refusal};

// Test 3 of the two lists' lengths.
fn count_fault(starts: usize, concentrations: usize) -> bool
    ensures { result ≡ (outside row_section.counts starts || not (eqb starts concentrations)) }
{
    outside(ROWS.counts, starts as u64) || starts != concentrations
}

// Test 8 of each row.
// By index, here and below: the two lists are side by side, as document 01 and C have the rows, and a row's place is asked for.
fn each_row_test(starts: &[u32], concentrations: &[u32], steps: u32) -> Result<(), Refusal>
    requires { (length starts.now ≤ length concentrations.now) × (length starts.now ≤ row_section.counts.high) }
    ensures { finding_says result ≡ test_each 8 row (length starts.now) (row_fault steps starts.now concentrations.now) }
{
    let mut before = None;
    for i in 0..starts.len() {
        if row_fault(steps, before, starts[i], concentrations[i]) {
            return Err(Fault::BoundaryRow.at(Place::Row(i as u32 + 1)));
        }
        before = Some(starts[i]);
    }
    Ok(())
}

// "It tests their count (3, also for two lists of different length), then the rows (8)."
fn rows_test(starts: &[u32], concentrations: &[u32], steps: u32) -> Result<(), Refusal>
    ensures { finding_says result ≡ first (upstream_tests steps starts.now concentrations.now) }
{
    Fault::Count.test(count_fault(starts.len(), concentrations.len()))?;
    each_row_test(starts, concentrations, steps)
}

// "that of the last row starting at or before j", of rows in any order, as the definition has it: so all are looked at, and not halved
fn last_started(starts: &[u32], concentrations: &[u32], j: u32) -> u32
    requires { length starts.now ≤ length concentrations.now }
    ensures { result ≡ upstream_at j starts.now concentrations.now }
{
    let mut found: u32 = 0;
    for i in 0..starts.len() {
        if starts[i] <= j {
            found = concentrations[i];
        }
    }
    found
}

// U at step j of the rows, for M steps.
pub fn upstream(starts: &[u32], concentrations: &[u32], steps: u32, j: u32) -> Result<u32, Refusal>
    ensures { upstream_says result ≡ upstream_answer steps j starts.now concentrations.now }
{
    rows_test(starts, concentrations, steps)?;
    Ok(last_started(starts, concentrations, j))
}
