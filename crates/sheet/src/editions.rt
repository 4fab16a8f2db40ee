// The mark, which stands for an edition, and the sections that a sheet of that edition has.
ghost use Rattle.std.specs.Prelude.{◌≡◌, List, ℕ, ◌+◌, ◌<◌, ◌≤◌, length, get_or};
ghost use Rattle.model.specs.Ranges.{band_section};
ghost use Rattle.model.specs.Sheet as Document;
ghost use Rattle.model.specs.Sheet.{reach_count, sections};
ghost use Rattle.limits.specs.Says.{section_says};
ghost use Rattle.sheet.specs.Editions.{mark_says};

use crate::fields::reach_count;
use limits::{BANDS, FLOW_ROWS, GAUGES, REACHES, ROWS, Section};

// The marks that a sheet can start with, one for each edition.
#[derive(Clone, Copy, Debug, PartialEq, Eq, PartialOrd, Ord)]
pub enum Mark {
    Otr1,
    Otr2,
    Otr3,
}

// None for "Fewer than four bytes, or another mark."
pub fn edition(sheet: &[u8]) -> Option<Mark>
    ensures { mark_says result ≡ Document.edition sheet.now }
{
    if sheet.starts_with(b"OTR1") {
        return Some(Mark::Otr1);
    }
    if sheet.starts_with(b"OTR2") {
        return Some(Mark::Otr2);
    }
    if sheet.starts_with(b"OTR3") {
        return Some(Mark::Otr3);
    }
    None
}

// How many sections the sheet has: from the third edition on one more for each reach.
pub fn section_count(sheet: &[u8]) -> usize
    ensures { (result ≡ length (sections sheet.now)) × (result ≤ 4 + reach_count sheet.now) }
{
    match edition(sheet) {
        None => 3,
        Some(Mark::Otr1) => 3,
        Some(Mark::Otr2) => 4,
        Some(Mark::Otr3) => 4 + reach_count(sheet) as usize,
    }
}

// Section k of a sheet that has it.
// k is a place in the sheet's order; a table in place of the `match` was tried, and asks more proof for the same text.
pub fn section_of(k: usize) -> Section
    ensures { ((s : List ℕ) → k < length (sections s) → section_says result ≡ get_or (sections s) k band_section) × (result.width < 32) }
{
    match k {
        0 => REACHES,
        1 => ROWS,
        2 => GAUGES,
        3 => FLOW_ROWS,
        _ => BANDS,
    }
}
