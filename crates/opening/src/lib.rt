// An opening of a river in a pool that is lent the list of reach records with the other lists: the documents' call.
#![tactic(auto)]

ghost use Rattle.std.specs.Prelude.{◌≡◌, map, length};
ghost use Rattle.model.specs.Pool.{open_answer, open_columns, open_records, pool_open, open_highest};
ghost use Rattle.terms.specs.Says.{reach_says};
ghost use Rattle.terms.specs.Lent.{columns_lent, pool_lent, SameColumns, SameState};
ghost use Rattle.assembly.specs.Says.{load_says};

use assembly::Loaded;
use pool_table::Table;
use records::{fill, fill_count};
use terms::{ColumnsMut, Reach, Refusal, StateListsMut};

// "Whoever opens one gives it a number from 1 to 8 and has it loaded and started in one call": its tests on any bytes, any numbers and any lists;
// where all pass, the first entries of each list are written, the river is started behind the open ones, and the table has it; otherwise nothing.
pub fn open(
    river: u32,
    sheet: &[u8],
    row: u32,
    reaches: &mut [Reach],
    columns: &mut ColumnsMut,
    shared: &mut StateListsMut,
    highest: &mut [u32],
    table: &mut Table,
    u: u32,
) -> Result<Loaded, Refusal>
    ensures answer { load_says result
        ≡ open_answer sheet.now row (length reaches.old) (columns_lent columns.old) (pool_lent shared.old table.old) river highest.old u }
    ensures lists { columns_lent columns.new
        ≡ open_columns sheet.now row (length reaches.old) (columns_lent columns.old) (pool_lent shared.old table.old) river highest.old u }
    ensures same_columns { SameColumns columns.old columns.new }
    ensures pool { pool_lent shared.new table.new
        ≡ pool_open sheet.now row (length reaches.old) (columns_lent columns.old) (pool_lent shared.old table.old) river highest.old u }
    ensures same_shared { SameState shared.old shared.new }
    ensures highest { highest.new
        ≡ open_highest sheet.now row (length reaches.old) (columns_lent columns.old) (pool_lent shared.old table.old) river highest.old u }
    ensures records { map reach_says reaches.new
        ≡ open_records sheet.now row (map reach_says reaches.old) (columns_lent columns.old) (pool_lent shared.old table.old) river highest.old u }
{
    let answer = pool::open_lists(
        river,
        sheet,
        row,
        reaches.len(),
        columns,
        shared,
        highest,
        table,
        u,
    );
    fill(reaches, sheet, fill_count(answer, sheet));
    answer
}
