// The table of a pool, which is lent as forty numbers, five for each of eight slots: a slot taken out and put in, and tests 17 and 18.
#![tactic(auto)]

ghost use Rattle.std.specs.Prelude.{◌≡◌, cond, ◌||◌, ◌-◌, ◌≤◌, set, IfOk};
ghost use Rattle.lists.specs.Lists.{any_below};
ghost use Rattle.model.specs.Ranges.{outside, ◌to◌, most_rivers};
ghost use Rattle.model.specs.Pool.{is_open, end_of, slot_at, slot_of, slot_with, open_segments};
ghost use Rattle.model.specs.Pool.{room_fault, passes_end, overlap, table_fault, number_fault};
ghost use Rattle.model.specs.Refusals.{test};
ghost use Rattle.terms.specs.Lent.{table_in};
ghost use Rattle.terms.specs.Says.{finding_says};
ghost use Rattle.pool_table.specs.Says.{slot_says};

use limits::{MOST_SEGMENTS, RIVERS};
use std::ops::Range;
use terms::{Fault, Place, Refusal};

// A slot is five of the table's numbers.
const WIDTH: usize = 5;

const NUMBERS: usize = WIDTH * RIVERS;

// Numbers, and no array of slots: C lends them so.
pub type Table = [u32; NUMBERS];

// What the table has of a river's number; C's tables have it so, `opened` a number.
#[derive(Clone, Copy, Default)]
pub struct Slot {
    // 0: no river is open under the number.
    pub opened: u32,
    // The first of the river's segments among those of the shared lists, which count from 0.
    pub first: u32,
    pub segments: u32,
    // U and the count of steps done.
    pub upstream: u32,
    pub steps: u32,
}

impl Slot {
    pub fn is_open(self) -> bool
        ensures { result ≡ is_open (slot_says self) }
    {
        self.opened != 0
    }

    // The segment behind its last.
    pub fn end(self) -> usize
        ensures { result ≡ end_of (slot_says self) }
    {
        (self.first as usize) + (self.segments as usize)
    }

    // The river's stretch of the shared lists.
    pub fn stretch(self) -> Range<usize>
        ensures { (result.start ≡ self.first) × (result.end ≡ end_of (slot_says self)) }
    {
        self.first as usize..self.end()
    }

    // The slot with another U and count of steps done.
    pub fn with_state(self, upstream: u32, steps: u32) -> Slot
        ensures { slot_says result ≡ slot_with (slot_says self) upstream steps }
    {
        Slot {
            upstream,
            steps,
            ..self
        }
    }

    fn open_segments(self) -> u64
        ensures { (result ≡ cond (is_open (slot_says self)) self.segments 0) × (result ≤ 4294967295) }
    {
        if self.is_open() {
            u64::from(self.segments)
        } else {
            0
        }
    }

    fn passes_end(self) -> bool
        ensures { result ≡ passes_end (slot_says self) }
    {
        self.is_open() && (MOST_SEGMENTS as usize) < self.end()
    }

    fn overlaps(self, other: Slot) -> bool
        ensures { result ≡ overlap (slot_says self) (slot_says other) }
    {
        self.is_open()
            && other.is_open()
            && (self.first.max(other.first) as usize) < self.end().min(other.end())
    }
}

// The slot at place i, which counts from 0. Past the last place it is vacant.
pub fn taken(table: Table, i: usize) -> Slot
    ensures { slot_says result ≡ slot_at (table_in table) i }
{
    if RIVERS <= i {
        return Slot::default();
    }
    let at = WIDTH * i;
    Slot {
        opened: table[at],
        first: table[at + 1],
        segments: table[at + 2],
        upstream: table[at + 3],
        steps: table[at + 4],
    }
}

// Puts this slot at place i of a table. Past the last place nothing is written.
pub fn put(table: &mut Table, i: usize, slot: Slot)
    ensures { table_in table.new ≡ set (table_in table.old) i (slot_says slot) }
{
    if i < RIVERS {
        let at = WIDTH * i;
        table[at..at + WIDTH].copy_from_slice(&[
            slot.opened,
            slot.first,
            slot.segments,
            slot.upstream,
            slot.steps,
        ]);
    }
}

// The segments of the open rivers together, of any table.
fn open_segments(table: Table) -> u64
    ensures { (result ≡ open_segments (table_in table)) × (result ≤ 34359738360) }
{
    let mut sum: u64 = 0;
    for i in 0..RIVERS {
        sum += taken(table, i).open_segments();
    }
    sum
}

// 18, of the table alone.
pub fn table_fault(table: Table) -> bool
    ensures { result ≡ table_fault (table_in table) }
{
    (0..RIVERS).any(|i| slot_fault(table, i))
}

// Of the slot at place i: its river passes the end, or one before it overlaps.
fn slot_fault(table: Table, i: usize) -> bool
    ensures { let slot = slot_at (table_in table) in result ≡ (passes_end (slot i) || any_below i (λ j. overlap (slot i) (slot j))) }
{
    let slot = taken(table, i);
    slot.passes_end() || overlaps_before(table, i, slot)
}

// A slot before place i overlaps this one.
fn overlaps_before(table: Table, i: usize, slot: Slot) -> bool
    ensures { result ≡ any_below i (λ j. overlap (slot_says slot) (slot_at (table_in table) j)) }
{
    (0..i).any(|j| slot.overlaps(taken(table, j)))
}

// The place of a river's number, where that is one from 1 to 8.
#[tactic(auto, unfolding(model::specs::Ranges::outside))]
fn place(river: u32) -> Option<usize>
    ensures { result ≡ cond (outside (1 to most_rivers) river) None (Some (river - 1)) }
{
    if river < 1 || RIVERS < river as usize {
        return None;
    }
    Some(river as usize - 1)
}

// 17, of a new river with n segments.
#[tactic(auto, unfolding(model::specs::Pool::room_fault))]
pub fn room_fault(table: Table, river: u32, n: u32) -> bool
    ensures { result ≡ room_fault (table_in table) river n }
{
    let Some(i) = place(river) else {
        return true;
    };
    taken(table, i).is_open() || u64::from(MOST_SEGMENTS) < u64::from(n) + open_segments(table)
}

// The slot of an open river, by its number; else 18.
#[tactic(auto, unfolding(model::specs::Pool::number_fault))]
pub fn open_slot(table: Table, river: u32) -> Result<Slot, Refusal>
    ensures finding { finding_says result ≡ test 18 (number_fault (table_in table) river) }
    ensures slot { IfOk result (λ x. slot_says x ≡ slot_of (table_in table) river) }
{
    let Some(i) = place(river) else {
        return Err(Fault::NotOpen.at(Place::Nothing));
    };
    let slot = taken(table, i);
    Fault::NotOpen.test(!slot.is_open() || table_fault(table))?;
    Ok(slot)
}
