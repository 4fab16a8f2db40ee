// The sheet's own river in lent lists: its start and its next step, with both sides of a step filled off the sheet. No test is made: what 13 to 15
// ask is known of an accepted sheet and kept from step to step.
#![tactic(auto)]

ghost use Rattle.std.specs.Prelude.{◌<◌, ◌≤◌};
ghost use Rattle.model.specs.Ranges.{highest, most_steps};
ghost use Rattle.model.specs.Sheet.{flow_row_count};
ghost use Rattle.terms.specs.Lent.{state_lent, working_lent, SameState, SameWorking, LongFigures};
ghost use Rattle.own_river.specs.Sides.{width, sides_of, filled, where_other, kept, SidesAre};
ghost use Rattle.own_river.specs.Ready.{OfSheet, Held, Begun, Ready, Stepped};

use lists::copy;
use otis::River;
use sheet::fields::flow_in_force;
use sides::{fill, keep, new, old, starts};
use terms::{StateListsMut, WorkingMut};

pub mod rows;
pub mod sides;

// Both sides of n segments off the sheet, with the set of the flow in force at this step.
pub fn hold(sheet: &[u8], steps: u32, n: usize, sides: &mut [u32])
    requires { OfSheet sheet.now n × (n ≤ width sides.old) }
    ensures { Held sheet.now n steps sides.old sides.new }
{
    fill(sheet, flow_in_force(sheet, steps), n, sides);
    keep(sides);
}

// The start of n segments: "A start sets C, Z and W to the start figure, U to that of step 0 and the count to 0." Both sides hold the set of the flow
// in force at step 0.
pub fn start(sheet: &[u8], n: usize, sides: &mut [u32], state: &mut StateListsMut, u: u32) -> River
    requires { OfSheet sheet.now n × (n ≤ width sides.old)
        × LongFigures n state.old.channel.now state.old.storage.now state.old.sediment.now × (u ≤ highest) }
    ensures same { SameState state.old state.new }
    ensures begun { Begun sheet.now n sides.old (state_lent state.old 0 0) u sides.new (state_lent state.new result.upstream result.steps) }
{
    hold(sheet, 0, n, sides);
    let starts = starts(sides);
    copy(n, starts, &mut state.channel[..]);
    copy(n, starts, &mut state.storage[..]);
    copy(n, starts, &mut state.sediment[..]);
    River {
        upstream: u,
        steps: 0,
    }
}

// Another flow than the one held comes into force: its set is filled off the sheet.
fn fill_other(sheet: &[u8], held: u32, flow: u32, n: usize, sides: &mut [u32])
    requires { OfSheet sheet.now n × (flow ≤ flow_row_count sheet.now) × (n ≤ width sides.old) }
    ensures { SidesAre (where_other held flow (filled sheet.now flow) (sides_of sides.old)) sides.old sides.new }
{
    if held != flow {
        fill(sheet, flow, n, sides);
    }
}

// Where one did, its set is then the old side's too.
fn keep_other(held: u32, flow: u32, sides: &mut [u32])
    ensures { SidesAre (where_other held flow kept (sides_of sides.old)) sides.old sides.new }
{
    if held != flow {
        keep(sides);
    }
}

// The next step, from the state's U to U', which is `u`.
// The sheet, n and the lists go by their names: what is lent by `&mut` is not known behind a struct of structs (forecast tried it), and what is left of
// parameters, and of facts on them, is no plainer in a struct of its own.
pub fn step(
    river: River,
    sheet: &[u8],
    n: usize,
    sides: &mut [u32],
    state: &mut StateListsMut,
    working: &mut WorkingMut,
    u: u32,
) -> River
    requires { Ready sheet.now n sides.old (state_lent state.old river.upstream river.steps) (working_lent working.old)
        × (river.steps < most_steps) × (u ≤ highest) }
    ensures same_state { SameState state.old state.new }
    ensures same_working { SameWorking working.old working.new }
    ensures stepped { Stepped sheet.now n sides.old (state_lent state.old river.upstream river.steps) (working_lent working.old) u
        sides.new (state_lent state.new result.upstream result.steps) (working_lent working.new) }
{
    let steps = river.steps + 1;
    let held = flow_in_force(sheet, river.steps);
    let flow = flow_in_force(sheet, steps);
    fill_other(sheet, held, flow, n, sides);
    sweep::step(n, river.upstream, u, old(sides), new(sides), state, working);
    keep_other(held, flow, sides);
    River { upstream: u, steps }
}
