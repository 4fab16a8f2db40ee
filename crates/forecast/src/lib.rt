// When will it reach the gate? A forecast copies the state, and steps the copies ahead with U' and the sets that the sheet gives for each step.
#![tactic(auto)]

ghost use Rattle.std.specs.Prelude.{◌≡◌, not, cond, ◌||◌, ℕ, ◌+◌, ◌*◌, ◌<◌, ◌≤◌, eqb, ltb, length, get_or};
ghost use Rattle.lists.specs.Lists.{any_below};
ghost use Rattle.model.specs.Ranges.{most_segments};
ghost use Rattle.model.specs.Sheet.{gauge_count, gauges, steps_m};
ghost use Rattle.model.specs.Highest.{block_count};
ghost use Rattle.model.specs.Refusals.{passes, first};
ghost use Rattle.model.specs.Load.{river_tests};
ghost use Rattle.forecast_model.specs.Forecast.{copied_highest, forecast_fault, ahead_tests, forecast_of, forecast, pool_forecast};
ghost use Rattle.terms.specs.Says.{finding_says};
ghost use Rattle.terms.specs.Lent.{state_lent, pool_of, working_lent, SameState, SameWorking};
ghost use Rattle.own_river.specs.Ready.{Ready};
ghost use Rattle.forecast.specs.Says.{foreseen_says, forecast_says, question_says, live_of, room_lent};
ghost use Rattle.forecast.specs.Tests.{lent_fault};
ghost use Rattle.forecast.specs.Left.{Fit, Ran, Looked, result_left, SidesLeft};

use assembly::river_test;
use calltests::figures::held_fault;
use calltests::segments::figures_at_fault;
use limits::{SEGMENTS, outside};
use lists::{any_short, copy};
use otis::River;
use own_river::hold;
use own_river::rows::upstream_at;
use own_river::sides::PARTS;
use pool::pool_test;
use pool_table::Table;
use sheet::fields::{gauge, gauge_count, segment_count, steps};
use std::ops::Range;
use terms::{Fault, Place, Refusal, StateLists, StateListsMut, WorkingMut};

// "a gauge, by its segment number, and a limit", and "a horizon", in steps.
#[derive(Clone, Copy)]
pub struct Question {
    pub gauge: u32,
    pub limit: u32,
    pub horizon: u32,
}

// U and the count of the copies: at the first step at which the gauge's channel figure is above the limit, or at the horizon's end, where it is
// above at none.
#[derive(Clone, Copy)]
pub enum Forecast {
    Above(River),
    NotAbove(River),
}

// The live river, which is only read: its segment count, U and the count of steps done, its state and its highest figures.
#[derive(Clone, Copy)]
pub struct Live<'a> {
    pub n: u32,
    pub river: River,
    pub state: StateLists<'a>,
    pub highest: &'a [u32],
}

// What is lent to write goes by four names, `copies`, `highest1`, `sides` and `working`: in a struct that holds structs of `&mut`, a caller's proof
// no longer knows what stands in its lists (tried).

// One of the sheet's gauges is at this segment.
fn on_sheet(sheet: &[u8], segment: u32) -> bool
    ensures { result ≡ any_below (gauge_count sheet.now) (λ j. eqb (get_or (gauges sheet.now) j 0) segment) }
{
    (0..gauge_count(sheet) as usize).any(|j| gauge(sheet, j) == segment)
}

// 20. "present step plus horizon" is added up in 64 bits.
#[tactic(auto, unfolding(forecast_model::specs::Forecast::forecast_fault))]
fn forecast_fault(sheet: &[u8], done: u32, asked: Question) -> bool
    ensures { result ≡ forecast_fault sheet.now done (question_says asked) }
{
    !on_sheet(sheet, asked.gauge)
        || u64::from(steps(sheet)) < u64::from(done) + u64::from(asked.horizon)
}

// 13 of all that is lent.
#[tactic(auto, unfolding(lists::specs::Lists::any_under, lists::specs::Lists::any_shorter, model::specs::Calls::river_fault, model::specs::Highest::blocks_fault))]
fn lent_fault(
    sheet: &[u8],
    live: Live,
    copies: &StateListsMut,
    highest1: &[u32],
    sides: &[u32],
    working: &WorkingMut,
) -> bool
    ensures { result ≡ lent_fault sheet.now (live_of live.entry) (room_lent copies.now highest1.now sides.now working.now 0 0) }
{
    let n = live.n as usize;
    outside(SEGMENTS, u64::from(live.n))
        || any_short(
            n,
            &[
                live.state.channel.len(),
                live.state.storage.len(),
                live.state.sediment.len(),
                copies.channel.len(),
                copies.storage.len(),
                copies.sediment.len(),
                working.p.len(),
                working.y.len(),
            ],
        )
        || live.highest.len() < blocks::count(live.n)
        || highest1.len() < blocks::count(live.n)
        || sides.len() < PARTS * n
        || segment_count(sheet) != n
}

// 13, 14 and 20, behind the tests of the sheet.
fn ahead_test(
    sheet: &[u8],
    live: Live,
    copies: &StateListsMut,
    highest1: &[u32],
    sides: &[u32],
    working: &WorkingMut,
    asked: Question,
) -> Result<(), Refusal>
    ensures { (upstream steps : ℕ) →
        let lent = room_lent copies.now highest1.now sides.now working.now upstream steps in
        finding_says result ≡ first (ahead_tests sheet.now (live_of live.entry) lent (question_says asked)) }
{
    Fault::ListLength.test(lent_fault(sheet, live, copies, highest1, sides, working))?;
    if let Some(i) = figures_at_fault(live.n as usize, live.state) {
        return Err(Fault::Figure.at(Place::Segment(i as u32 + 1)));
    }
    Fault::Figure.test(held_fault(live.river.upstream, live.river.steps, 0, 0))?;
    Fault::Horizon.test(forecast_fault(sheet, live.river.steps, asked))
}

// Steps ahead until the gauge's channel figure, at place `at`, is above the limit, else to the horizon's end.
fn run(
    river: River,
    sheet: &[u8],
    n: usize,
    sides: &mut [u32],
    state: &mut StateListsMut,
    working: &mut WorkingMut,
    at: usize,
    asked: Question,
) -> River
    requires { Ready sheet.now n sides.old (state_lent state.old river.upstream river.steps) (working_lent working.old)
        × (river.steps + asked.horizon ≤ steps_m sheet.now) × (at < n) }
    ensures same_state { SameState state.old state.new }
    ensures same_working { SameWorking working.old working.new }
    ensures ran { Ran sheet.now sides.old (state_lent state.old river.upstream river.steps) (working_lent working.old) at asked.limit asked.horizon
        sides.new (state_lent state.new result.upstream result.steps) (working_lent working.new) }
{
    let mut river = river;
    for _ in 0..asked.horizon {
        if asked.limit < state.channel[at] {
            return river;
        }
        let u = upstream_at(sheet, river.steps + 1);
        river = own_river::step(river, sheet, n, sides, state, working, u);
    }
    river
}

// The highest figures of the copies: as the live river's are lent where no step was made, else those of the copies' channel figures.
fn copy_highest(made: u32, live: Live, copies: &StateListsMut, highest1: &mut [u32])
    requires { (live.n ≤ most_segments) × (block_count live.n ≤ length live.highest.now) × (live.n ≤ length copies.now.channel.now)
        × (block_count live.n ≤ length highest1.old) }
    ensures { highest1.new ≡ copied_highest live.entry.n live.entry.highest.now copies.now.channel.now highest1.old made }
{
    if made == 0 {
        copy(blocks::count(live.n), live.highest, highest1);
    } else {
        blocks::fill(live.n as usize, &copies.channel[..], highest1);
    }
}

// What is found where the copies stop, by their figure at the gauge.
fn found(stopped: River, figure: u32, limit: u32) -> Forecast
    ensures { result ≡ cond (ltb limit figure) (Forecast.Above stopped) (Forecast.NotAbove stopped) }
{
    if limit < figure {
        return Forecast::Above(stopped);
    }
    Forecast::NotAbove(stopped)
}

// A forecast whose tests pass.
fn look(
    sheet: &[u8],
    live: Live,
    copies: &mut StateListsMut,
    highest1: &mut [u32],
    sides: &mut [u32],
    working: &mut WorkingMut,
    asked: Question,
) -> Forecast
    requires { Fit sheet.now (live_of live) (room_lent copies.old highest1.old sides.old working.old 0 0) (question_says asked) }
    ensures same_state { SameState copies.old copies.new }
    ensures same_working { SameWorking working.old working.new }
    ensures looked { Looked sheet.now (live_of live.entry) (room_lent copies.old highest1.old sides.old working.old 0 0) (question_says asked)
        (foreseen_says result) (room_lent copies.new highest1.new sides.new working.new 0 0) }
{
    let n = live.n as usize;
    copy(n, live.state.channel, &mut copies.channel[..]);
    copy(n, live.state.storage, &mut copies.storage[..]);
    copy(n, live.state.sediment, &mut copies.sediment[..]);
    hold(sheet, live.river.steps, n, sides);
    let at = asked.gauge as usize - 1;
    let stopped = run(live.river, sheet, n, sides, copies, working, at, asked);
    copy_highest(stopped.steps - live.river.steps, live, copies, highest1);
    found(stopped, copies.channel[at], asked.limit)
}

// A forecast behind the tests of the sheet, which pass.
fn behind(
    sheet: &[u8],
    live: Live,
    copies: &mut StateListsMut,
    highest1: &mut [u32],
    sides: &mut [u32],
    working: &mut WorkingMut,
    asked: Question,
) -> Result<Forecast, Refusal>
    requires { first (river_tests sheet.now) ≡ passes }
    ensures same_state { SameState copies.old copies.new }
    ensures same_working { SameWorking working.old working.new }
    ensures result { (upstream steps : ℕ) →
        let lent = room_lent copies.old highest1.old sides.old working.old upstream steps in
        result_left (forecast_says result) (state_lent copies.new) upstream steps highest1.new (working_lent working.new)
        ≡ forecast_of (ahead_tests sheet.now (live_of live.entry) lent (question_says asked))
        sheet.now (live_of live.entry) lent (question_says asked) }
    ensures sides { SidesLeft (forecast_says result) sheet.now sides.old sides.new }
{
    ahead_test(sheet, live, copies, highest1, sides, working, asked)?;
    Ok(look(sheet, live, copies, highest1, sides, working, asked))
}

// A forecast of a river whose lists are its own: the sheet's tests, 13, 14 and 20. `sides` is the list of both sides of a step.
pub fn alone(
    sheet: &[u8],
    live: Live,
    copies: &mut StateListsMut,
    highest1: &mut [u32],
    sides: &mut [u32],
    working: &mut WorkingMut,
    asked: Question,
) -> Result<Forecast, Refusal>
    ensures same_state { SameState copies.old copies.new }
    ensures same_working { SameWorking working.old working.new }
    ensures result { (upstream steps : ℕ) →
        result_left (forecast_says result) (state_lent copies.new) upstream steps highest1.new (working_lent working.new)
        ≡ forecast sheet.now (live_of live.entry) (room_lent copies.old highest1.old sides.old working.old upstream steps) (question_says asked) }
    ensures sides { SidesLeft (forecast_says result) sheet.now sides.old sides.new }
{
    river_test(sheet)?;
    behind(sheet, live, copies, highest1, sides, working, asked)
}

// A forecast of the river that is open under this number on a pool, which does not move: the sheet's tests, 18, 13, 14 and 20. `highest` is the
// river's own list.
pub fn on_pool(
    river: u32,
    sheet: &[u8],
    shared: StateLists,
    highest: &[u32],
    table: &Table,
    copies: &mut StateListsMut,
    highest1: &mut [u32],
    sides: &mut [u32],
    working: &mut WorkingMut,
    asked: Question,
) -> Result<Forecast, Refusal>
    ensures same_state { SameState copies.old copies.new }
    ensures same_working { SameWorking working.old working.new }
    ensures result { (upstream steps : ℕ) →
        result_left (forecast_says result) (state_lent copies.new) upstream steps highest1.new (working_lent working.new)
        ≡ pool_forecast sheet.now (pool_of shared.entry table.now) river highest.now
        (room_lent copies.old highest1.old sides.old working.old upstream steps) (question_says asked) }
    ensures sides { SidesLeft (forecast_says result) sheet.now sides.old sides.new }
{
    river_test(sheet)?;
    let slot = pool_test(river, shared, table)?;
    let Range { start: first, end } = slot.stretch();
    let live = Live {
        n: slot.segments,
        river: River {
            upstream: slot.upstream,
            steps: slot.steps,
        },
        state: StateLists {
            channel: &shared.channel[first..end],
            storage: &shared.storage[first..end],
            sediment: &shared.sediment[first..end],
        },
        highest,
    };
    behind(sheet, live, copies, highest1, sides, working, asked)
}
