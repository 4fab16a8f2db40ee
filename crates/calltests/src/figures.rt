// Tests of single figures and of a segment's entries.
ghost use Rattle.std.specs.Prelude.{◌≡◌, ◌||◌, ltb};
ghost use Rattle.model.specs.Ranges.{outside, concentration, most_steps};
ghost use Rattle.model.specs.Calls.{numbers_fault, segment_fault, figure_fault};
ghost use Rattle.terms.specs.Says.{numbers_say};

use limits::{HIGHEST, KD, STEPS};
use terms::Numbers;

// "a concentration exceeds its limit"
fn too_high(x: u32) -> bool
    ensures { result ≡ outside concentration x }
{
    HIGHEST < x
}

// Test 14 of a segment's numbers in a set; "the last g is not 0".
#[tactic(auto, unfolding(model::specs::Calls::numbers_fault))]
pub fn numbers_fault(last: bool, x: Numbers) -> bool
    ensures { result ≡ numbers_fault last (numbers_say x) }
{
    x.sum_fault() || (last && x.g != 0)
}

// Test 14 of a segment's entries in the fourteen lists.
#[tactic(auto, unfolding(model::specs::Calls::segment_fault))]
pub fn segment_fault(last: bool, x: Numbers, cl: u32, cb: u32, kd: u32, start: u32) -> bool
    ensures { result ≡ segment_fault last (record { numbers = numbers_say x; cl = cl; cb = cb; kd = kd; start = start }) }
{
    numbers_fault(last, x) || KD.high < kd || too_high(cl) || too_high(cb) || too_high(start)
}

// Test 14 of a segment's figures.
#[tactic(auto, unfolding(model::specs::Calls::figure_fault))]
pub fn figure_fault(c: u32, z: u32, w: u32) -> bool
    ensures { result ≡ figure_fault (record { c = c; z = z; w = w }) }
{
    too_high(c) || too_high(z) || too_high(w)
}

// Test 14 of what no segment has: U and the count of steps done, and of a step U' and M. The highest count of steps is also the highest M.
pub fn held_fault(upstream: u32, done: u32, u: u32, steps: u32) -> bool
    ensures { result ≡ (outside concentration upstream || ltb most_steps done || outside concentration u || ltb most_steps steps) }
{
    too_high(upstream) || STEPS.high < done || too_high(u) || STEPS.high < steps
}
