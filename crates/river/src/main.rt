// Program river: reads a river sheet on standard input and prints its listing, or `refused` and the number of the refusal.
#![tactic(auto)]

ghost use Rattle.std.specs.Prelude.{◌≡◌, ◌≤◌, length};
ghost use Rattle.model.specs.Refusals.{passes, first};
ghost use Rattle.model.specs.Load.{river_tests};
ghost use Rattle.model.specs.Sheet.{steps_m};
ghost use Rattle.terms.specs.Lent.{state_lent, working_lent};
ghost use Rattle.own_river.specs.Ready.{Ready};
ghost use Rattle.output.specs.Outcomes.{longest};
ghost use Rattle.river.specs.Printed.{Ran, PutListing, PutSheet, Printed};

use assembly::river_test;
use listing::put_lines;
use otis::River;
use output::Writer;
use own_river::rows::upstream_at;
use own_river::sides::{PARTS, kd};
use reading::read_full;
use sheet::LONGEST;
use sheet::fields::{segment_count, steps};
use std::io;
use terms::{StateListsMut, WorkingMut};

// One byte more than the longest sheet has shows that bytes follow its last section.
const BYTES: usize = LONGEST + 1;

// The entries of a list: one for each of the most segments, and a cache line's sixteen more. A step reads some thirty lists side by side, and
// if they stood a multiple of 4,096 bytes apart, they would drive one another out of the cache.
const ROOM: usize = River::SEGMENTS as usize + 16;

// The bytes of the text that are gathered for one write.
const GATHERED: usize = 65536;

// The sheet's own river from this state up to M: the lines of each step, and then `done` with the steps made.
fn run(
    mut river: River,
    sheet: &[u8],
    n: usize,
    sides: &mut [u32],
    state: &mut StateListsMut,
    working: &mut WorkingMut,
    out: &mut Writer,
)
    requires { Ready sheet.now n sides.old (state_lent state.old river.upstream river.steps) (working_lent working.old)
        × (river.steps ≤ steps_m sheet.now) }
    ensures { Ran sheet.now n (state_lent state.old river.upstream river.steps) sides.new
        state.new.channel.now state.new.storage.now state.new.sediment.now (working_lent working.new) out.old out.new }
{
    let most = steps(sheet);
    for done in river.steps..most {
        let u = upstream_at(sheet, done + 1);
        river = own_river::step(river, sheet, n, sides, state, working, u);
        put_lines(river, sheet, kd(sides), state.read(), out);
        // Nothing more is printed once a write has failed.
        if out.output.failed {
            break;
        }
    }
    out.put_done(river.steps);
}

// The listing of an accepted sheet: its river is started and run.
fn put_listing(sheet: &[u8], out: &mut Writer)
    requires { first (river_tests sheet.now) ≡ passes }
    ensures { PutListing sheet.now out.old out.new }
{
    let n = segment_count(sheet);
    let mut sides = [0u32; PARTS * ROOM];
    let mut channel = [0u32; ROOM];
    let mut storage = [0u32; ROOM];
    let mut sediment = [0u32; ROOM];
    let mut p = [0u64; ROOM];
    let mut y = [0u64; ROOM];
    let mut state = StateListsMut {
        channel: &mut channel,
        storage: &mut storage,
        sediment: &mut sediment,
    };
    let mut working = WorkingMut {
        p: &mut p,
        y: &mut y,
    };
    let u = upstream_at(sheet, 0);
    let river = own_river::start(sheet, n, &mut sides, &mut state, u);
    out.put_heading();
    run(river, sheet, n, &mut sides, &mut state, &mut working, out);
}

// What is put of these bytes: "A refused sheet prints only `refused` and its number."
fn put_sheet<'r, 'b>(rt: &'r HostRuntime, sheet: &[u8], buffer: &'b mut [u8]) -> Writer<'r, 'b>
    ensures { PutSheet sheet.now buffer.entry result }
{
    let mut out = Writer::new(rt, buffer);
    match river_test(sheet) {
        Ok(()) => put_listing(sheet, &mut out),
        Err(refusal) => out.put_refused(refusal.fault.number()),
    }
    out
}

// And printed, with the last write made.
fn print<'r, 'b>(rt: &'r HostRuntime, sheet: &[u8], buffer: &'b mut [u8]) -> Writer<'r, 'b>
    requires { longest ≤ length buffer.old }
    ensures { Printed sheet.now buffer.entry result }
{
    let mut out = put_sheet(rt, sheet, buffer);
    out.flush();
    out
}

fn main(rt: HostRuntime) -> io::Result<()> {
    let mut bytes = [0u8; BYTES];
    let got = read_full(&mut rt.stdin(), &mut bytes)?;
    let mut buffer = [0u8; GATHERED];
    print(&rt, &bytes[..got], &mut buffer);
    Ok(())
}
