// Document 02, 6: the bands of a reach, A, D and AS at a flow, and test 19.
#![tactic(auto)]

ghost use Rattle.std.specs.Prelude.{◌≡◌, suc, ◌<◌};
ghost use Rattle.model.specs.Sheet.{reach_count, bands_on};
ghost use Rattle.model.specs.Bands.{holds, hydraulics_at, band_fault, overlap, begins, gap_behind, broken_at, bands_fault};
ghost use Rattle.model.specs.Refusals as Document;
ghost use Rattle.model.specs.Refusals.{test_each};
ghost use Rattle.lists.specs.Lists.{any_below};
ghost use Rattle.terms.specs.Says.{finding_says, reach_says, hydraulics_say};
ghost use Rattle.bands.specs.Bands.{count_on, band_says, bands_say, Standing};
ghost use Rattle.sheet.specs.Walks.{Walked};

mod place;

use limits::{AREA, BANDS, DISPERSION, FLOW, Range, outside};
pub use place::Bands;
use sheet::editions::{Mark, edition};
use sheet::fields::{band_count_at, field, reach_count};
use terms::{Fault, Hydraulics, Place, Reach, Refusal};

// "lowest flow, highest flow, A, D and AS"
#[derive(Clone, Copy)]
pub struct Band {
    pub lowest: u32,
    pub highest: u32,
    pub hydraulics: Hydraulics,
}

// The bytes of a field and of a count.
const SIZE: usize = 4;

// The bytes of a band.
const WIDTH: usize = SIZE * BANDS.width as usize;

// The count that stands there, on a sheet that has the section.
fn count_at(sheet: &[u8], at: usize) -> u32
    ensures { result ≡ count_on sheet.now at }
{
    if edition(sheet) < Some(Mark::Otr3) {
        return 0;
    }
    field(sheet, at)
}

impl Band {
    // By itself: out of range or reversed.
    #[tactic(auto, unfolding(model::specs::Bands::band_fault))]
    fn fault(self) -> bool
        ensures { result ≡ band_fault (band_says self) }
    {
        let x = self.hydraulics;
        outside(FLOW, u64::from(self.lowest))
            | outside(FLOW, u64::from(self.highest))
            | outside(AREA, u64::from(x.area))
            | outside(DISPERSION, u64::from(x.dispersion))
            | outside(AREA, u64::from(x.area2))
            | (self.highest < self.lowest)
    }

    // A flow is in both.
    #[tactic(auto, unfolding(model::specs::Bands::overlap))]
    fn overlaps(self, other: Band) -> bool
        ensures { result ≡ overlap (band_says self) (band_says other) }
    {
        (self.lowest <= other.highest) & (other.lowest <= self.highest)
    }
}

impl Bands {
    // Those of the first reach.
    pub fn first(sheet: &[u8]) -> Bands
        ensures { Standing sheet.now 0 result }
    {
        let at = band_count_at(sheet);
        Bands {
            at,
            count: count_at(sheet, at),
        }
    }

    // Those of the reach below reach i, from 0: on a sheet without bands there is nowhere to go.
    pub fn below(self, sheet: &[u8], i: u32) -> Bands
        requires { Walked sheet.now × Standing sheet.now i self × (i < reach_count sheet.now) }
        ensures { Standing sheet.now (suc i) result }
    {
        if edition(sheet) < Some(Mark::Otr3) {
            return self;
        }
        let at = self.at + SIZE + WIDTH * (field(sheet, self.at) as usize);
        Bands {
            at,
            count: field(sheet, at),
        }
    }

    // Band j.
    fn band(self, sheet: &[u8], j: u32) -> Band
        ensures { band_says result ≡ (bands_say sheet.now self).band j }
    {
        let at = self.at + SIZE + WIDTH * (j as usize);
        Band {
            lowest: field(sheet, at),
            highest: field(sheet, at + SIZE),
            hydraulics: Hydraulics {
                area: field(sheet, at + 2 * SIZE),
                dispersion: field(sheet, at + 3 * SIZE),
                area2: field(sheet, at + 4 * SIZE),
            },
        }
    }

    // Band j holds the flow; both ends of a band belong to it. Of the band these alone are read, since one is looked for in each segment: with all five
    // fields a loading of the largest sheet with bands took more than three times as long.
    fn holds(self, sheet: &[u8], j: u32, q: u64) -> bool
        ensures { result ≡ holds ((bands_say sheet.now self).band j) q }
    {
        let at = self.at + SIZE + WIDTH * (j as usize);
        !outside(
            Range {
                low: field(sheet, at),
                high: field(sheet, at + SIZE),
            },
            q,
        )
    }

    // A, D and AS of the band that holds the flow, where none does the reach's own.
    pub fn hydraulics_at(self, sheet: &[u8], own: Reach, q: u64) -> Hydraulics
        ensures { hydraulics_say result ≡ hydraulics_at (bands_say sheet.now self) (reach_says own) q }
    {
        for j in 0..self.count {
            if self.holds(sheet, j, q) {
                return self.band(sheet, j).hydraulics;
            }
        }
        Hydraulics {
            area: own.area,
            dispersion: own.dispersion,
            area2: own.area2,
        }
    }

    // A band begins with this flow.
    fn begins(self, sheet: &[u8], q: u32) -> bool
        ensures { result ≡ begins (bands_say sheet.now self) q }
    {
        (0..self.count).any(|j| self.band(sheet, j).lowest == q)
    }

    // This band overlaps with one of the first i.
    fn overlaps(self, sheet: &[u8], band: Band, i: u32) -> bool
        ensures { result ≡ any_below i (λ j. overlap (band_says band) ((bands_say sheet.now self).band j)) }
    {
        (0..i).any(|j| band.overlaps(self.band(sheet, j)))
    }

    // The flow behind this band is one that has to be covered, and no band begins with it.
    fn gap_behind(self, sheet: &[u8], band: Band) -> bool
        ensures { result ≡ gap_behind (bands_say sheet.now self) (band_says band) }
    {
        band.highest < FLOW.high && !self.begins(sheet, band.highest + 1)
    }

    // Band i is at fault.
    fn broken_at(self, sheet: &[u8], i: u32) -> bool
        ensures { result ≡ broken_at (bands_say sheet.now self) i }
    {
        let band = self.band(sheet, i);
        band.fault() || self.overlaps(sheet, band, i) || self.gap_behind(sheet, band)
    }

    // 19, of one reach.
    fn fault(self, sheet: &[u8]) -> bool
        ensures { result ≡ bands_fault (bands_say sheet.now self) }
    {
        if self.count == 0 {
            return false;
        }
        !self.begins(sheet, 0) || (0..self.count).any(|i| self.broken_at(sheet, i))
    }
}

// 19. "a band is out of range or reversed, two bands overlap or a flow has none (reach)".
// That the walk has passed is what its `Ok` says of any bytes: a struct for it would be made for three functions, no plainer.
pub fn bands_test(sheet: &[u8]) -> Result<(), Refusal>
    requires { Walked sheet.now }
    ensures { let s = sheet.now in finding_says result ≡ test_each 19 Document.reach (reach_count s) (λ i. bands_fault (bands_on s i)) }
{
    let count = reach_count(sheet);
    let mut bands = Bands::first(sheet);
    for i in 0..count {
        if bands.fault(sheet) {
            return Err(Fault::Band.at(Place::Reach(i + 1)));
        }
        bands = bands.below(sheet, i);
    }
    Ok(())
}
