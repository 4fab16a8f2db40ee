// The lines of one step of the listing, read from the sheet and the state.
#![tactic(auto)]

ghost use Rattle.terms.specs.Lent.{state_of};
ghost use Rattle.output.specs.Listing.{step_lines, lines_at};
ghost use Rattle.output.specs.Outcomes.{PutLine, Lines};
ghost use Rattle.listing.specs.Shown.{Shown, HasSegment, line_at};

use otis::River;
use output::Writer;
use sheet::fields::{gauge, gauge_count, interval};
use terms::StateLists;

// "step, gauge's segment, C, Z, Kd × W": the line of the gauge at this segment, which counts from 1.
fn put_gauge(river: River, segment: u32, kd: &[u32], state: StateLists, out: &mut Writer)
    requires { HasSegment segment kd.now (state_of state river.upstream river.steps) }
    ensures { PutLine (line_at segment kd.now (state_of state.entry river.upstream river.steps)) out.old out.new }
{
    let i = segment as usize - 1;
    let sorbed = rounding::product(kd[i], state.sediment[i]);
    out.put_line(
        river.steps,
        segment,
        state.channel[i],
        state.storage[i],
        sorbed,
    );
}

// "gauges in the sheet's order".
fn put_gauges(river: River, sheet: &[u8], kd: &[u32], state: StateLists, out: &mut Writer)
    requires { Shown sheet.now kd.now (state_of state river.upstream river.steps) }
    ensures { Lines (step_lines sheet.now (state_of state.entry river.upstream river.steps)) out.old out.new }
{
    for j in 0..gauge_count(sheet) as usize {
        put_gauge(river, gauge(sheet, j), kd, state, out);
    }
}

// "lines come at multiples of the interval": the lines of the step that the river has made last. `kd` has the Kd of the river's segments.
pub fn put_lines(river: River, sheet: &[u8], kd: &[u32], state: StateLists, out: &mut Writer)
    requires { Shown sheet.now kd.now (state_of state river.upstream river.steps) }
    ensures { Lines (lines_at sheet.now (state_of state.entry river.upstream river.steps)) out.old out.new }
{
    if river.steps % interval(sheet) == 0 {
        put_gauges(river, sheet, kd, state, out);
    }
}
