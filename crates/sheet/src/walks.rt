// Tests 2 and 3: one walk from the front, section by section; and where it ends, for test 4.
ghost use Rattle.std.specs.Prelude.{◌≡◌};
ghost use Rattle.model.specs.Sheet.{sections, reach_count_at, sheet_end};
ghost use Rattle.model.specs.Load.{walk};
ghost use Rattle.terms.specs.Says.{finding_says};
ghost use Rattle.sheet.specs.Walks.{Walked};

use crate::editions::{section_count, section_of};
use crate::fields::field;
use crate::layout::{REACH_COUNT_AT, SIZE, section_end};
use limits::outside;
use terms::{Fault, Refusal};

// 2 and 3, "the one met first decides".
pub fn walk(sheet: &[u8]) -> Result<(), Refusal>
    ensures { finding_says result ≡ walk sheet.now reach_count_at (sections sheet.now) }
{
    let mut at: usize = REACH_COUNT_AT;
    for k in 0..section_count(sheet) {
        Fault::SheetEnds.test(sheet.len() < at + SIZE)?;
        let section = section_of(k);
        Fault::Count.test(outside(section.counts, u64::from(field(sheet, at))))?;
        at = section_end(sheet, at, section);
        Fault::SheetEnds.test(sheet.len() < at)?;
    }
    Ok(())
}

// The end of "whichever section is last", by the counts that the walk has passed; on a sheet that it refuses, as far as counts can be read.
pub fn sheet_end(sheet: &[u8]) -> usize
    ensures { Walked sheet.now → result ≡ sheet_end sheet.now }
{
    let mut at: usize = REACH_COUNT_AT;
    for k in 0..section_count(sheet) {
        if sheet.len() < at + SIZE {
            return at;
        }
        at = section_end(sheet, at, section_of(k));
    }
    at
}
