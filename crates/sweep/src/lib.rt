// One step of the river: the downward pass, then the upward pass with storage and sediment.
#![tactic(auto)]

ghost use Rattle.std.specs.Prelude.{◌≡◌, cond, ◌<◌, ◌≤◌, ltb, length, get_or};
ghost use Rattle.model.specs.Sweep.{downward, finish, up};
ghost use Rattle.model.specs.State.{pair_at, pairs_of, figures_of};
ghost use Rattle.terms.specs.Lent.{set_of, columns_of, state_lent, working_lent, SameState, SameWorking};
ghost use Rattle.segment.specs.Says.{pair_says};
ghost use Rattle.sweep.specs.Step.{passed_of, LongPairs, Ready, UpReady, FiguresOver, PassedOver, Stepped};

use segment::{Figures, Pair, Passed};
use terms::{Columns, Set, StateListsMut, WorkingMut};

// The channel figure at i, 0 below the last segment. Of the first n entries alone: those behind them may be anything, so `get` does not serve.
fn channel_or_0(channel: &[u32], i: usize, n: usize) -> u32
    requires { n ≤ length channel.now }
    ensures { result ≡ cond (ltb i n) (get_or channel.now i 0) 0 }
{
    if i < n { channel[i] } else { 0 }
}

// Segment i with both its sides.
// n, old and new stay three parameters: they are what a step is lent, and a struct of them would be made and read in this crate alone, no plainer.
fn pair_at(n: usize, i: usize, old: Set, new: Columns) -> Pair
    requires { (i < n) × LongPairs n (set_of old) (columns_of new) }
    ensures { pair_says result ≡ pair_at (set_of old.entry) (columns_of new.entry) i }
{
    Pair {
        old: old.numbers_at(n, i),
        new: new.numbers.numbers_at(n, i),
        cl: new.cl[i],
        cb: new.cb[i],
    }
}

// The downward pass writes p and y alone. What stands in p is tried, and trusted for nothing: a step with the same new set left it there.
// By index, here and in the upward pass: some thirty lists side by side, and the figure of the next segment; zips of them are no plainer.
fn downward(
    n: usize,
    u: u32,
    next: u32,
    old: Set,
    new: Columns,
    state: &StateListsMut,
    working: &mut WorkingMut,
)
    requires { Ready n (set_of old) (columns_of new) (state_lent state.now u 0) (working_lent working.old) next }
    ensures same { SameWorking working.old working.new }
    ensures lists { PassedOver (downward u next (pairs_of n (set_of old.entry) (columns_of new.entry)) (figures_of n (state_lent state.now u 0)))
        (working_lent working.old) (working_lent working.new) }
{
    let mut above = u;
    let mut d = Passed {
        p: 0,
        y: u64::from(next),
        storage: 0,
        sediment: 0,
    };
    for i in 0..n {
        let x = pair_at(n, i, old, new);
        let c = state.channel[i];
        let below = channel_or_0(&state.channel[..], i + 1, n);
        let f = Figures {
            c,
            z: state.storage[i],
            w: state.sediment[i],
        };
        d = segment::passed_down(x, above, below, f, d, working.p[i]);
        above = c;
        working.p[i] = d.p;
        working.y[i] = d.y;
    }
}

// The upward pass, with the uncut C' of the segment below carried along. A segment's old figures are read before its new ones are stored;
// p and y stay as they are.
fn upward(n: usize, old: Set, new: Columns, working: &WorkingMut, state: &mut StateListsMut)
    requires { UpReady n (set_of old) (columns_of new) (state_lent state.old 0 0) (working_lent working.now) }
    ensures same { SameState state.old state.new }
    ensures lists { FiguresOver (finish (pairs_of n (set_of old.entry) (columns_of new.entry)) (figures_of n (state_lent state.old 0 0))
        (up (passed_of n (working_lent working.now)))) (state_lent state.old 0 0) (state_lent state.new 0 0) }
{
    let mut below: u64 = 0;
    for i in (0..n).rev() {
        let x = pair_at(n, i, old, new);
        let d = Passed {
            p: working.p[i],
            y: working.y[i],
            storage: 0,
            sediment: 0,
        };
        below = segment::raised(d, below);
        let now = Figures {
            c: state.channel[i],
            z: state.storage[i],
            w: state.sediment[i],
        };
        let f = segment::new_figures(x, now, below);
        state.channel[i] = f.c;
        state.storage[i] = f.z;
        state.sediment[i] = f.w;
    }
}

// One step of n segments. `u` stands above segment 1 on the old side, `next` on the new side: U and U' of document 01.
pub fn step(
    n: usize,
    u: u32,
    next: u32,
    old: Set,
    new: Columns,
    state: &mut StateListsMut,
    working: &mut WorkingMut,
)
    requires { Ready n (set_of old) (columns_of new) (state_lent state.old u 0) (working_lent working.old) next }
    ensures same_state { SameState state.old state.new }
    ensures same_working { SameWorking working.old working.new }
    ensures lists { Stepped n (set_of old.entry) (columns_of new.entry) (state_lent state.old u 0) (working_lent working.old) next
        (state_lent state.new 0 0) (working_lent working.new) }
{
    downward(n, u, next, old, new, state, working);
    upward(n, old, new, working, state);
}
