// A loading that is lent the list of reach records with the other lists: the documents' call.
#![tactic(auto)]

ghost use Rattle.std.specs.Prelude.{◌≡◌, map, length};
ghost use Rattle.model.specs.Load.{load_answer, load_columns, load_records};
ghost use Rattle.terms.specs.Says.{reach_says};
ghost use Rattle.terms.specs.Lent.{columns_lent, SameColumns};
ghost use Rattle.assembly.specs.Says.{load_says};

use assembly::Loaded;
use records::{fill, fill_count};
use terms::{ColumnsMut, Reach, Refusal};

// "The reach table is handed to the loader as a list of reach records, lent with the other lists": its tests on any bytes, any number of a
// flow row and any lists; where all pass, the first entries of each list are written, with the set of that row's flow, otherwise nothing.
pub fn load(
    sheet: &[u8],
    row: u32,
    reaches: &mut [Reach],
    columns: &mut ColumnsMut,
) -> Result<Loaded, Refusal>
    ensures answer { load_says result ≡ load_answer sheet.now row (length reaches.old) (columns_lent columns.old) }
    ensures same { SameColumns columns.old columns.new }
    ensures lists { columns_lent columns.new ≡ load_columns sheet.now row (length reaches.old) (columns_lent columns.old) }
    ensures records { map reach_says reaches.new ≡ load_records sheet.now row (map reach_says reaches.old) (columns_lent columns.old) }
{
    let answer = Loaded::assemble(sheet, row, reaches.len(), columns);
    fill(reaches, sheet, fill_count(answer, sheet));
    answer
}
