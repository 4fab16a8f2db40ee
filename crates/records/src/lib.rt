// The list of reach records that a loading is lent: a record put in, one taken out, and its first entries filled from a sheet.
#![tactic(auto)]

ghost use Rattle.std.specs.Prelude.{◌≡◌, map, set, get_or};
ghost use Rattle.model.specs.Sheet.{reach_count};
ghost use Rattle.terms.specs.Says.{reach_says};
ghost use Rattle.assembly.specs.Says.{load_says};
ghost use Rattle.records.specs.Records.{no_reach, filled, fill_count};

use assembly::Loaded;
use sheet::fields::{reach, reach_count};
use terms::{Reach, Refusal};

// Puts a record at place i, which counts from 0. Past the end of the list nothing is written. No `get_mut`: the edit put-past-the-end writes
// past the end, which that cannot.
pub fn put(reaches: &mut [Reach], i: usize, value: Reach)
    ensures { reaches.new ≡ set reaches.old i value }
{
    if i < reaches.len() {
        reaches[i] = value;
    }
}

// The record at place i, which counts from 0. Past the end of the list it is a record of zeros.
pub fn take(reaches: &[Reach], i: usize) -> Reach
    ensures { result ≡ get_or reaches.now i no_reach }
{
    reaches.get(i).copied().unwrap_or_default()
}

// Fills the first `count` entries from the sheet, as far as the list reaches; the others stay.
pub fn fill(reaches: &mut [Reach], sheet: &[u8], count: usize)
    ensures { map reach_says reaches.new ≡ filled sheet.now count (map reach_says reaches.old) }
{
    for i in 0..count {
        put(reaches, i, reach(sheet, i));
    }
}

// How many entries a loading with this answer fills: one for each reach where it was accepted, and none where it was refused.
pub fn fill_count(answer: Result<Loaded, Refusal>, sheet: &[u8]) -> usize
    ensures { result ≡ fill_count (load_says answer) (reach_count sheet.now) }
{
    match answer {
        Ok(_) => reach_count(sheet) as usize,
        Err(_) => 0,
    }
}
