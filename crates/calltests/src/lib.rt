// Tests 13 and 14 of a start, a step and a report, on lists of any length and content.
#![tactic(auto)]

ghost use Rattle.std.specs.Prelude.{◌≡◌, ◌+◌, ◌<◌, unwrap_or};
ghost use Rattle.model.specs.Ranges.{most_segments};
ghost use Rattle.model.specs.Refusals.{segment, first};
ghost use Rattle.model.specs.Calls.{start_tests};
ghost use Rattle.terms.specs.Says.{place_says, finding_says};
ghost use Rattle.terms.specs.Lent.{columns_of, state_of};
ghost use Rattle.calltests.specs.Tests.{state_tests};

use crate::figures::held_fault;
use crate::segments::{figures_at_fault, river_fault, segment_at_fault};
use limits::{CONCENTRATION, outside};
use terms::{Columns, Fault, Place, Refusal, StateLists};

pub mod figures;
pub mod segments;

// The place of the segment at i: segments count from 1.
fn place_of(i: usize) -> Place
    requires { i < most_segments }
    ensures { place_says result ≡ segment (i + 1) }
{
    Place::Segment(i as u32 + 1)
}

// "a start .. 13 then 14": U and the count that the state had are not looked at, and 0 stands for them here.
pub fn start_test(
    n: u32,
    columns: Columns,
    state: StateLists,
    highest: &[u32],
    u: u32,
) -> Result<(), Refusal>
    ensures { finding_says result ≡ first (start_tests n (columns_of columns.entry) (state_of state.entry 0 0) highest.now u) }
{
    Fault::ListLength.test(river_fault(n, columns, state))?;
    Fault::ListLength.test(highest.len() < blocks::count(n))?;
    if let Some(i) = segment_at_fault(n as usize, columns) {
        return Err(Fault::Figure.at(place_of(i)));
    }
    Fault::Figure.test(outside(CONCENTRATION, u64::from(u)))
}

// Tests 13 and 14 of a step or a report. `unfit` says what 13 finds of the others that it is lent or handed, `other` is the lowest segment
// that 14 finds at fault in a step's old set, counting from 0. A report has neither, nor U' and M: one test of both keeps its name and its promise.
pub fn state_test(
    n: u32,
    columns: Columns,
    state: StateLists,
    unfit: bool,
    other: Option<usize>,
    upstream: u32,
    done: u32,
    u: u32,
    steps: u32,
) -> Result<(), Refusal>
    ensures { finding_says result ≡ first (state_tests n (columns_of columns.entry)
        (state_of state.entry upstream done) unfit (unwrap_or other n) u steps) }
{
    Fault::ListLength.test(river_fault(n, columns, state))?;
    Fault::ListLength.test(unfit)?;
    let count = n as usize;
    // The least as a number, with n for none: `None` is below every `Some`, so that the `min` of Options is no plainer.
    let i = other
        .unwrap_or(count)
        .min(segment_at_fault(count, columns).unwrap_or(count))
        .min(figures_at_fault(count, state).unwrap_or(count));
    if i < count {
        return Err(Fault::Figure.at(place_of(i)));
    }
    Fault::Figure.test(held_fault(upstream, done, u, steps))
}
