// What an accepted opening does to a pool: the segments of the open rivers move to the front of each shared list, in their order, and the new
// river's start figures stand behind them; and the table that says so.
#![tactic(auto)]

ghost use Rattle.std.specs.Prelude.{◌≡◌, false, map, ◌+◌, ◌<◌, ◌≤◌, length, get_or, set};
ghost use Rattle.lists.specs.Lists.{tab, over};
ghost use Rattle.model.specs.Ranges.{most_segments, most_rivers};
ghost use Rattle.model.specs.Pool.{slot_at, open_segments, table_fault, holds, covered, covered_below, kept, packed, moved, new_slot};
ghost use Rattle.terms.specs.Lent.{table_in};
ghost use Rattle.pool_table.specs.Says.{slot_says};

use limits::{MOST_SEGMENTS, RIVERS};
use lists::copy;
use pool_table::{Slot, Table, put, taken};

// Segment s of the shared lists is the slot's.
fn holds(slot: Slot, s: u32) -> bool
    ensures { result ≡ holds (slot_says slot) s }
{
    slot.is_open() && slot.first <= s && (s as usize) < slot.end()
}

// It is an open river's.
fn is_covered(table: Table, s: u32) -> bool
    ensures { result ≡ covered (table_in table) s }
{
    (0..RIVERS).any(|i| holds(taken(table, i), s))
}

// How many of the first `end` segments are open rivers'.
// A `for` and no chain: the sum is a definition of the pool's, and the loop is its turn; a chain is no plainer.
fn covered_below(table: Table, end: u32) -> u32
    requires { end ≤ most_segments }
    ensures { result ≡ covered_below (table_in table) end }
{
    let mut to: u32 = 0;
    for s in 0..end {
        if is_covered(table, s) {
            to += 1;
        }
    }
    to
}

// The open rivers' entries to the front of a shared list, in their order; how many they are.
// `to` is moved by hand: no method of a slice packs in place, and those of `Vec` want a heap.
fn pack(table: Table, list: &mut [u32]) -> u32
    requires { most_segments ≤ length list.old }
    ensures list { list.new ≡ over (kept (table_in table) most_segments list.old) list.old }
    ensures count { result ≡ covered_below (table_in table) most_segments }
{
    let mut to: u32 = 0;
    for s in 0..MOST_SEGMENTS {
        if is_covered(table, s) {
            list[to as usize] = list[s as usize];
            to += 1;
        }
    }
    to
}

// A shared list as an accepted opening leaves it: the open rivers' entries, and behind them the first n of these figures.
pub fn pack_with(table: Table, n: usize, figures: &[u32], list: &mut [u32])
    requires { (n + open_segments (table_in table) ≤ most_segments) × (n ≤ length figures.now) × (most_segments ≤ length list.old) }
    ensures { list.new ≡ packed (table_in table) (tab 0 n (λ i. get_or figures.now i 0)) list.old }
{
    let to = pack(table, list) as usize;
    let end = to + n;
    copy(n, figures, &mut list[to..end]);
}

// The slot at place i as its river has moved.
// That the table passes 18 stays a clause: a struct for it would be made in one function and read in the two below it, no plainer.
fn moved_slot(table: Table, i: usize) -> Slot
    requires { (i < most_rivers) × (table_fault (table_in table) ≡ false) }
    ensures { slot_says result ≡ moved (table_in table) (slot_at (table_in table) i) }
{
    let slot = taken(table, i);
    if !slot.is_open() {
        return slot;
    }
    Slot {
        first: covered_below(table, slot.first),
        ..slot
    }
}

// All of them.
fn move_slots(table: &mut Table)
    requires { table_fault (table_in table.old) ≡ false }
    ensures { table_in table.new ≡ map (moved (table_in table.old)) (table_in table.old) }
{
    let before = *table;
    for i in 0..RIVERS {
        put(table, i, moved_slot(before, i));
    }
}

// The table of an accepted opening: the open rivers as they have moved, and the new one, of n segments, at place i.
pub fn pack_table(table: &mut Table, i: usize, n: u32, u: u32)
    requires { table_fault (table_in table.old) ≡ false }
    ensures { table_in table.new ≡ set (map (moved (table_in table.old)) (table_in table.old)) i (new_slot (table_in table.old) n u) }
{
    let first = covered_below(*table, MOST_SEGMENTS);
    move_slots(table);
    put(
        table,
        i,
        Slot {
            opened: 1,
            first,
            segments: n,
            upstream: u,
            steps: 0,
        },
    );
}
