// Document 01, "The river sheet", with the sections of document 02: the range of every field and count, and the limits of the calls, each
// number written once. `model/specs/Ranges` has the same for the definitions.
#![tactic(auto)]

ghost use Rattle.std.specs.Prelude.{◌≡◌};
ghost use Rattle.model.specs.Ranges.{outside};
ghost use Rattle.limits.specs.Says.{range_says};

#[derive(Clone, Copy)]
pub struct Range {
    pub low: u32,
    pub high: u32,
}

// A section of the sheet: a count, and then that many records of `width` fields.
#[derive(Clone, Copy)]
pub struct Section {
    pub counts: Range,
    pub width: u32,
}

// "Concentrations are 0 to 1,000,000,000 ng/L."
pub const CONCENTRATION: Range = Range {
    low: 0,
    high: 1_000_000_000,
};

// At the top, in a band, and of lateral flow per km.
pub const FLOW: Range = Range {
    low: 0,
    high: 100_000_000,
};

// Of the channel and of storage, cm².
pub const AREA: Range = Range {
    low: 1,
    high: 1_000_000,
};

// "The five rates", in 10⁻⁹ per second.
pub const RATE: Range = Range {
    low: 0,
    high: 1_000_000_000,
};

pub const DT: Range = Range {
    low: 1,
    high: 3_600,
};

pub const DX: Range = Range {
    low: 10,
    high: 10_000,
};

pub const STEPS: Range = Range {
    low: 1,
    high: 100_000,
};

// Of a reach; a river has as many at most.
pub const SEGMENTS: Range = Range {
    low: 1,
    high: 1_024,
};

pub const DISPERSION: Range = Range {
    low: 0,
    high: 1_000_000,
};

pub const RHO: Range = Range {
    low: 0,
    high: 1_000_000,
};

pub const KD: Range = Range {
    low: 0,
    high: 1_000,
};

pub const REACH_WIDTH: usize = 16;

pub const REACHES: Section = Section {
    counts: Range { low: 1, high: 64 },
    width: REACH_WIDTH as u32,
};

pub const ROWS: Section = Section {
    counts: Range { low: 1, high: 256 },
    width: 2,
};

pub const GAUGES: Section = Section {
    counts: Range { low: 1, high: 32 },
    width: 1,
};

pub const FLOW_ROWS: Section = Section {
    counts: Range { low: 1, high: 64 },
    width: 2,
};

// Of a reach.
pub const BANDS: Section = Section {
    counts: Range { low: 0, high: 32 },
    width: 5,
};

// The highest concentration, in ng/L.
pub const HIGHEST: u32 = CONCENTRATION.high;

// The most segments of a river, and of the rivers on a pool together.
pub const MOST_SEGMENTS: u32 = SEGMENTS.high;

// "a number from 1 to 8"
pub const RIVERS: usize = 8;

// x is outside its range.
pub fn outside(range: Range, x: u64) -> bool
    ensures { result ≡ outside (range_says range) x }
{
    (x < range.low as u64) | ((range.high as u64) < x)
}
