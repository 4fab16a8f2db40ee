// Where things stand on a sheet. No slice reaches the highest usize, so a position that is not below it counts as that one: either is past the end.
ghost use Rattle.std.specs.Prelude.{◌≡◌, ◌+◌, ◌^◌, ◌<◌};
ghost use Rattle.model.specs.Sheet.{section_end};
ghost use Rattle.limits.specs.Says.{section_says};

use crate::fields::field;
use limits::{BANDS, FLOW_ROWS, GAUGES, REACHES, ROWS, Section};

// The bytes of the mark, of a field and of a count.
pub const SIZE: usize = 4;

const HEADER_WIDTH: usize = 5;

pub const REACH_COUNT_AT: usize = SIZE + SIZE * HEADER_WIDTH;

// The bytes of the longest sheet: the most records in every section.
pub const LONGEST: usize = REACH_COUNT_AT
    + SIZE * (1 + (REACHES.width * REACHES.counts.high) as usize)
    + SIZE * (1 + (ROWS.width * ROWS.counts.high) as usize)
    + SIZE * (1 + (GAUGES.width * GAUGES.counts.high) as usize)
    + SIZE * (1 + (FLOW_ROWS.width * FLOW_ROWS.counts.high) as usize)
    + SIZE * (REACHES.counts.high * (1 + BANDS.width * BANDS.counts.high)) as usize;

// Where a section ends whose count stands at `at`.
pub fn section_end(sheet: &[u8], at: usize, section: Section) -> usize
    requires { (at < 2 ^ 63 + 2 ^ 32) × (section.width < 32) }
    ensures { (result ≡ section_end sheet.now at (section_says section)) × (result < at + 2 ^ 39) }
{
    at + SIZE + SIZE * ((section.width as usize) * (field(sheet, at) as usize))
}
