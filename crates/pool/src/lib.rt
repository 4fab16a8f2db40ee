// The calls on a pool: a table and three lists that up to eight rivers share. Each river works on its own stretch of the lists.
#![tactic(auto)]

ghost use Rattle.std.specs.Prelude.{◌≡◌, ℕ, List, [], IfOk};
ghost use Rattle.model.specs.Refusals.{first};
ghost use Rattle.model.specs.Calls.{no_working, Call, call_result};
ghost use Rattle.model.specs.Pool.{slot_of, shared_lists, shared_fault, pool_tests, pool_result, close_finding, closed_table};
ghost use Rattle.model.specs.Pool.{open_tests, open_answer, open_columns, pool_open, open_highest};
ghost use Rattle.terms.specs.Says.{finding_says};
ghost use Rattle.terms.specs.Lent.{columns_lent, SameColumns, SameState, set_of, columns_of, table_in};
ghost use Rattle.terms.specs.Lent.{state, pool_of, pool_lent, pool_left, working, working_lent, working_left};
ghost use Rattle.pool_table.specs.Says.{slot_says};
ghost use Rattle.assembly.specs.Says.{load_says};
ghost use Rattle.otis.specs.Says.{answer_says, report_says};
ghost use Rattle.otis.specs.Outcomes.{state_after, result_with};

use assembly::{Loaded, list_test, river_test};
use limits::{CONCENTRATION, SEGMENTS, outside};
use lists::any_short;
use otis::{Figures, River};
use packing::{pack_table, pack_with};
use pool_table::{Slot, Table, open_slot, put, room_fault, table_fault};
use sheet::fields::segment_count;
use std::ops::Range;
use terms::{Columns, ColumnsMut, Fault, Refusal, Set, StateLists, StateListsMut, WorkingMut};

// 13 of the shared lists.
#[tactic(auto, unfolding(model::specs::Pool::shared_fault, lists::specs::Lists::any_shorter, lists::specs::Lists::any_under))]
fn shared_fault(shared: StateLists) -> bool
    ensures { result ≡ shared_fault (shared_lists (pool_of shared.entry [])) }
{
    any_short(
        SEGMENTS.high as usize,
        &[
            shared.channel.len(),
            shared.storage.len(),
            shared.sediment.len(),
        ],
    )
}

// 18, and then 13 of the shared lists: the river's slot where both pass.
pub fn pool_test(river: u32, shared: StateLists, table: &Table) -> Result<Slot, Refusal>
    ensures finding { finding_says result ≡ first (pool_tests (table_in table.now) (shared_lists (pool_of shared.entry table.now)) river) }
    ensures slot { IfOk result (λ x. slot_says x ≡ slot_of (table_in table.now) river) }
{
    let slot = open_slot(*table, river)?;
    Fault::ListLength.test(shared_fault(shared))?;
    Ok(slot)
}

// U and the count of steps done, as the slot has them.
fn river_in(slot: Slot) -> River
    ensures { result ≡ record { upstream = slot.upstream; steps = slot.steps } }
{
    River {
        upstream: slot.upstream,
        steps: slot.steps,
    }
}

// Document 01's start, lent each list by itself: what becomes of a part that is lent inside a struct is not known afterwards.
fn start_on(
    n: u32,
    columns: Columns,
    channel: &mut [u32],
    storage: &mut [u32],
    sediment: &mut [u32],
    highest: &mut [u32],
    u: u32,
) -> Result<River, Refusal>
    ensures { (upstream steps : ℕ) →
        result_with (answer_says result) (state_after (state channel.new storage.new sediment.new) (answer_says result) upstream steps)
        highest.new no_working
        ≡ call_result n (state channel.old storage.old sediment.old upstream steps) (Call.start (columns_of columns.entry) highest.old u) }
{
    let state = StateListsMut {
        channel,
        storage,
        sediment,
    };
    River::start(n, columns, state, highest, u)
}

// Document 01's step, for the same reason.
fn step_on(
    held: River,
    n: u32,
    old: Set,
    new: Columns,
    channel: &mut [u32],
    storage: &mut [u32],
    sediment: &mut [u32],
    highest: &mut [u32],
    p: &mut [u64],
    y: &mut [u64],
    u: u32,
    steps: u32,
) -> Result<River, Refusal>
    ensures { result_with (answer_says result)
        (state_after (state channel.new storage.new sediment.new) (answer_says result) held.upstream held.steps) highest.new (working p.new y.new)
        ≡ call_result n (state channel.old storage.old sediment.old held.upstream held.steps)
        (Call.step (set_of old.entry) (columns_of new.entry) highest.old (working p.old y.old) u steps) }
{
    let state = StateListsMut {
        channel,
        storage,
        sediment,
    };
    held.step(n, old, new, state, highest, WorkingMut { p, y }, u, steps)
}

// A start of an open river: tests 18, 13 and 14. `highest` is the river's own list.
// The shared lists and the table go side by side, here and below: of a struct that holds a struct of `&mut` a caller's proof no longer knows what stands in
// its lists (forecast tried it).
pub fn start(
    river: u32,
    columns: Columns,
    shared: StateListsMut,
    highest: &mut [u32],
    table: &mut Table,
    u: u32,
) -> Result<River, Refusal>
    ensures { result_with (answer_says result) (pool_left shared.exit table.new) highest.new no_working
        ≡ pool_result (pool_lent shared.entry table.old) river (Call.start (columns_of columns.entry) highest.old u) }
{
    let slot = pool_test(river, shared.read(), &*table)?;
    let Range { start: first, end } = slot.stretch();
    let StateListsMut {
        channel,
        storage,
        sediment,
    } = shared;
    let started = start_on(
        slot.segments,
        columns,
        &mut channel[first..end],
        &mut storage[first..end],
        &mut sediment[first..end],
        highest,
        u,
    )?;
    put(
        table,
        river as usize - 1,
        slot.with_state(started.upstream, started.steps),
    );
    Ok(started)
}

// A step of an open river: tests 18, 13, 14 and 15.
pub fn step(
    river: u32,
    old: Set,
    new: Columns,
    shared: StateListsMut,
    highest: &mut [u32],
    table: &mut Table,
    working: WorkingMut,
    u: u32,
    steps: u32,
) -> Result<River, Refusal>
    ensures { result_with (answer_says result) (pool_left shared.exit table.new) highest.new (working_left working.exit)
        ≡ pool_result (pool_lent shared.entry table.old) river
        (Call.step (set_of old.entry) (columns_of new.entry) highest.old (working_lent working.entry) u steps) }
{
    let slot = pool_test(river, shared.read(), &*table)?;
    let Range { start: first, end } = slot.stretch();
    let StateListsMut {
        channel,
        storage,
        sediment,
    } = shared;
    let WorkingMut { p, y } = working;
    let stepped = step_on(
        river_in(slot),
        slot.segments,
        old,
        new,
        &mut channel[first..end],
        &mut storage[first..end],
        &mut sediment[first..end],
        highest,
        p,
        y,
        u,
        steps,
    )?;
    put(
        table,
        river as usize - 1,
        slot.with_state(stepped.upstream, stepped.steps),
    );
    Ok(stepped)
}

// A report of a segment of an open river, which counts from 1: tests 18, 13 and 14.
pub fn report(
    river: u32,
    columns: Columns,
    shared: StateLists,
    table: &Table,
    segment: u32,
) -> Result<Figures, Refusal>
    ensures { report_says result ≡ (pool_result (pool_of shared.entry table.now) river (Call.report (columns_of columns.entry) segment)).answer }
{
    let slot = pool_test(river, shared, table)?;
    let Range { start: first, end } = slot.stretch();
    let stretch = StateLists {
        channel: &shared.channel[first..end],
        storage: &shared.storage[first..end],
        sediment: &shared.sediment[first..end],
    };
    river_in(slot).report(slot.segments, columns, stretch, segment)
}

// A closing: 18 alone.
pub fn close(river: u32, table: &mut Table) -> Result<(), Refusal>
    ensures answer { finding_says result ≡ close_finding (table_in table.old) river }
    ensures table { table_in table.new ≡ closed_table (table_in table.old) river }
{
    let slot = open_slot(*table, river)?;
    put(table, river as usize - 1, Slot { opened: 0, ..slot });
    Ok(())
}

// The tests of an opening: 1 to 12 with 16 and 19 among them, 17, 18, 13 and 14. Of the list of reach records it is handed the length.
#[tactic(auto, using(assembly::proofs::TestsInTurn::in_turn), unfolding(model::specs::Pool::open_tests, model::specs::Highest::blocks_fault))]
fn open_test(
    river: u32,
    sheet: &[u8],
    row: u32,
    records: usize,
    columns: &ColumnsMut,
    shared: &StateListsMut,
    highest: &[u32],
    table: Table,
    u: u32,
) -> Result<(), Refusal>
    ensures { finding_says result
        ≡ first (open_tests sheet.now row records (columns_lent columns.now) (pool_lent shared.now table) river highest.now u) }
{
    river_test(sheet)?;
    let n = segment_count(sheet) as u32;
    Fault::Room.test(room_fault(table, river, n))?;
    Fault::NotOpen.test(table_fault(table))?;
    list_test(sheet, row, records, columns)?;
    Fault::ListLength.test(shared_fault(shared.read()) | (highest.len() < blocks::count(n)))?;
    Fault::Figure.test(outside(CONCENTRATION, u64::from(u)))
}

// An opening: the sheet is loaded for flow `row` and the river started with U at step 0, which is `u`.
pub fn open_lists(
    river: u32,
    sheet: &[u8],
    row: u32,
    records: usize,
    columns: &mut ColumnsMut,
    shared: &mut StateListsMut,
    highest: &mut [u32],
    table: &mut Table,
    u: u32,
) -> Result<Loaded, Refusal>
    ensures answer { load_says result
        ≡ open_answer sheet.now row records (columns_lent columns.old) (pool_lent shared.old table.old) river highest.old u }
    ensures lists { columns_lent columns.new
        ≡ open_columns sheet.now row records (columns_lent columns.old) (pool_lent shared.old table.old) river highest.old u }
    ensures same_columns { SameColumns columns.old columns.new }
    ensures pool { pool_lent shared.new table.new
        ≡ pool_open sheet.now row records (columns_lent columns.old) (pool_lent shared.old table.old) river highest.old u }
    ensures same_shared { SameState shared.old shared.new }
    ensures highest { highest.new
        ≡ open_highest sheet.now row records (columns_lent columns.old) (pool_lent shared.old table.old) river highest.old u }
{
    open_test(
        river,
        sheet,
        row,
        records,
        &*columns,
        &*shared,
        &highest[..],
        *table,
        u,
    )?;
    let loaded = Loaded::written(sheet, row, columns);
    let n = loaded.segments as usize;
    let start = &mut *columns.start;
    pack_with(*table, n, &start[..], &mut shared.channel[..]);
    pack_with(*table, n, &start[..], &mut shared.storage[..]);
    pack_with(*table, n, &start[..], &mut shared.sediment[..]);
    blocks::fill(n, &start[..], highest);
    pack_table(table, river as usize - 1, loaded.segments, u);
    Ok(loaded)
}
