// The public calls of the documents on a river that stands in lent lists: start, step and report.
#![tactic(auto)]

ghost use Rattle.std.specs.Prelude.{◌≡◌, ◌||◌, [], ◌∷◌, ℕ, ◌*◌, ◌<◌, ltb, length, get_or};
ghost use Rattle.lists.specs.Lists.{any_shorter, any_under};
ghost use Rattle.model.specs.Highest.{block_count};
ghost use Rattle.model.specs.State.{set_lists};
ghost use Rattle.model.specs.Calls.{no_working, Call, call_result};
ghost use Rattle.terms.specs.Lent.{set_of, columns_of, state_of, state_lent, state_left, working_lent, working_left};
ghost use Rattle.otis.specs.Says.{answer_says, report_says};
ghost use Rattle.otis.specs.Outcomes.{state_after, result_with};

use calltests::segments::set_at_fault;
use calltests::{start_test, state_test};
use limits::{Range, outside};
use lists::{any_short, copy};
use terms::{Columns, Fault, Refusal, Set, StateLists, StateListsMut, WorkingMut};

// The state's U and its count of steps done; the three lists of figures are lent.
#[derive(Clone, Copy)]
pub struct River {
    pub upstream: u32,
    pub steps: u32,
}

// The figures of a segment: C, Z and, of the sediment, Kd × W.
#[derive(Clone, Copy)]
pub struct Figures {
    pub channel: u32,
    pub storage: u32,
    pub sediment: u64,
}

impl River {
    // One whole.
    pub const SCALE: u64 = rounding::WHOLE;

    // The highest concentration, in ng/L.
    pub const HIGHEST: u32 = limits::HIGHEST;

    // The segment limit.
    pub const SEGMENTS: u32 = limits::SEGMENTS.high;

    // "A start sets C, Z and W to the start figure, U to that of step 0 and the count to 0": of n segments, whatever U and count the
    // state had. `highest` has the highest channel figure of each sixteen segments afterwards.
    // The lists are taken apart, here and in a step: the borrow checker does not cover lending two fields of a struct of references behind a `?` (tried).
    // So they are gathered to be read by hand: with `read` the proof did not close.
    pub fn start(
        n: u32,
        columns: Columns,
        state: StateListsMut,
        highest: &mut [u32],
        u: u32,
    ) -> Result<River, Refusal>
        ensures { ((upstream steps : ℕ) →
            result_with (answer_says result) (state_after (state_left state.exit) (answer_says result) upstream steps) highest.new no_working
            ≡ call_result n (state_lent state.entry upstream steps) (Call.start (columns_of columns.entry) highest.old u)) }
    {
        let StateListsMut {
            channel,
            storage,
            sediment,
        } = state;
        start_test(
            n,
            columns,
            StateLists {
                channel: &channel[..],
                storage: &storage[..],
                sediment: &sediment[..],
            },
            &highest[..],
            u,
        )?;
        let count = n as usize;
        copy(count, columns.start, &mut channel[..]);
        copy(count, columns.start, &mut storage[..]);
        copy(count, columns.start, &mut sediment[..]);
        blocks::fill(count, &channel[..], &mut highest[..]);
        Ok(River {
            upstream: u,
            steps: 0,
        })
    }

    // One step from the state's U to U', which is `u`, where fewer than M steps are done; `steps` is M. `highest` is as in a start. `old` and
    // `new` are the sets of the step's two sides.
    pub fn step(
        self,
        n: u32,
        old: Set,
        new: Columns,
        state: StateListsMut,
        highest: &mut [u32],
        working: WorkingMut,
        u: u32,
        steps: u32,
    ) -> Result<River, Refusal>
        ensures { result_with (answer_says result) (state_after (state_left state.exit) (answer_says result) self.upstream self.steps)
            highest.new (working_left working.exit)
            ≡ call_result n (state_lent state.entry self.upstream self.steps)
            (Call.step (set_of old.entry) (columns_of new.entry) highest.old (working_lent working.entry) u steps) }
    {
        let count = n as usize;
        let WorkingMut { p, y } = working;
        let unfit = others_short(n, highest.len(), p.len(), y.len(), old);
        let other = set_at_fault(count, old);
        let StateListsMut {
            channel,
            storage,
            sediment,
        } = state;
        state_test(
            n,
            new,
            StateLists {
                channel: &channel[..],
                storage: &storage[..],
                sediment: &sediment[..],
            },
            unfit,
            other,
            self.upstream,
            self.steps,
            u,
            steps,
        )?;
        Fault::StepsDone.test(steps <= self.steps)?;
        sweep::step(
            count,
            self.upstream,
            u,
            old,
            new,
            &mut StateListsMut {
                channel: &mut channel[..],
                storage: &mut storage[..],
                sediment: &mut sediment[..],
            },
            &mut WorkingMut {
                p: &mut p[..],
                y: &mut y[..],
            },
        );
        blocks::fill(count, &channel[..], &mut highest[..]);
        Ok(River {
            upstream: u,
            steps: self.steps + 1,
        })
    }

    // "a report a segment, for which it gives C, Z and Kd × W"; segments count from 1.
    pub fn report(
        self,
        n: u32,
        columns: Columns,
        state: StateLists,
        segment: u32,
    ) -> Result<Figures, Refusal>
        ensures { report_says result ≡ (call_result n (state_of state.entry self.upstream self.steps)
            (Call.report (columns_of columns.entry) segment)).answer }
    {
        let unfit = outside(Range { low: 1, high: n }, u64::from(segment));
        state_test(
            n,
            columns,
            state,
            unfit,
            None,
            self.upstream,
            self.steps,
            0,
            0,
        )?;
        Ok(figures_at(segment as usize - 1, columns.kd, state))
    }
}

// The figures of the segment at i, which counts from 0.
fn figures_at(i: usize, kd: &[u32], state: StateLists) -> Figures
    requires { (i < length kd.now) × (i < length state.channel.now) × (i < length state.storage.now) × (i < length state.sediment.now) }
    ensures { result ≡ record {
      channel = get_or state.entry.channel.now i 0;
      storage = get_or state.entry.storage.now i 0;
      sediment = get_or kd.now i 0 * get_or state.entry.sediment.now i 0;
    } }
{
    Figures {
        channel: state.channel[i],
        storage: state.storage[i],
        sediment: rounding::product(kd[i], state.sediment[i]),
    }
}

// Test 13 of what a step alone is lent: the highest figures, the working lists and the old set.
fn others_short(n: u32, highest: usize, p: usize, y: usize, old: Set) -> bool
    ensures { result ≡ (ltb highest (block_count n) || any_under n (p ∷ y ∷ []) || any_shorter n (set_lists (set_of old.entry))) }
{
    let count = n as usize;
    highest < blocks::count(n) || any_short(count, &[p, y]) || old.is_shorter(count)
}
