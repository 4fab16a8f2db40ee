// The river that the lent lists hold: test 13 of their lengths, and the lowest segment that test 14 finds at fault, counting from 0.
ghost use Rattle.std.specs.Prelude.{◌≡◌, cond, ◌||◌, [], ◌∷◌, ◌++◌, ◌<◌, ◌≤◌, ltb};
ghost use Rattle.lists.specs.Lists.{lowest};
ghost use Rattle.model.specs.Ranges.{most_segments};
ghost use Rattle.model.specs.State.{set_lists, column_lists, state_lists, figures_at};
ghost use Rattle.model.specs.Calls.{river_fault, figure_fault, start_fault, old_fault};
ghost use Rattle.terms.specs.Lent.{set_of, columns_of, state_of, LongSet, Long, LongFigures};
ghost use Rattle.calltests.specs.Tests.{below};

use crate::figures::{figure_fault, numbers_fault, segment_fault};
use limits::{SEGMENTS, outside};
use lists::any_short;
use terms::{Columns, Set, StateLists};

// Test 13 of the segment count and of the lists that every call is lent.
pub fn river_fault(n: u32, columns: Columns, state: StateLists) -> bool
    ensures { result ≡ river_fault n (column_lists (columns_of columns.entry) ++ state_lists (state_of state.entry 0 0)) }
{
    if outside(SEGMENTS, u64::from(n)) {
        return true;
    }
    if columns.numbers.is_shorter(n as usize) {
        return true;
    }
    any_short(
        n as usize,
        &[
            columns.cl.len(),
            columns.cb.len(),
            columns.kd.len(),
            columns.start.len(),
            state.channel.len(),
            state.storage.len(),
            state.sediment.len(),
        ],
    )
}

// The lowest segment whose numbers in the set are at fault.
// That lists are long enough is known behind test 13 alone, and n is no part of them: so both stay clauses.
fn numbers_at_fault(n: usize, numbers: Set) -> Option<usize>
    requires { (n ≤ most_segments) × LongSet n (set_of numbers) }
    ensures { result ≡ below n (lowest n (old_fault n (set_of numbers.entry))) }
{
    (0..n).find(|i| numbers_fault(*i + 1 == n, numbers.numbers_at(n, *i)))
}

// The same for any count and lengths: none where 13 finds fault with them, so that nothing is read.
pub fn set_at_fault(n: usize, numbers: Set) -> Option<usize>
    ensures { result ≡ below n (cond (river_fault n (set_lists (set_of numbers.entry))) n (lowest n (old_fault n (set_of numbers.entry)))) }
{
    if outside(SEGMENTS, n as u64) {
        return None;
    }
    if numbers.is_shorter(n) {
        return None;
    }
    numbers_at_fault(n, numbers)
}

// Test 14 of the entries of segment i in the fourteen lists.
fn fault_at(n: usize, i: usize, columns: Columns) -> bool
    requires { (i < n) × (n ≤ most_segments) × Long n (columns_of columns) }
    ensures { result ≡ start_fault n (columns_of columns.entry) i }
{
    segment_fault(
        i + 1 == n,
        columns.numbers.numbers_at(n, i),
        columns.cl[i],
        columns.cb[i],
        columns.kd[i],
        columns.start[i],
    )
}

// The lowest segment whose entries in the fourteen lists are at fault.
pub fn segment_at_fault(n: usize, columns: Columns) -> Option<usize>
    requires { (n ≤ most_segments) × Long n (columns_of columns) }
    ensures { result ≡ below n (lowest n (start_fault n (columns_of columns.entry))) }
{
    (0..n).find(|i| fault_at(n, *i, columns))
}

// The lowest segment whose figures are at fault.
pub fn figures_at_fault(n: usize, state: StateLists) -> Option<usize>
    requires { LongFigures n state.channel.now state.storage.now state.sediment.now }
    ensures { result ≡ below n (lowest n (λ i. figure_fault (figures_at (state_of state.entry 0 0) i))) }
{
    (0..n).find(|i| figure_fault(state.channel[*i], state.storage[*i], state.sediment[*i]))
}
