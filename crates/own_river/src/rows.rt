// The rows' U, off the sheet.
ghost use Rattle.std.specs.Prelude.{◌≡◌};
ghost use Rattle.model.specs.OwnRiver.{rows_upstream};

use sheet::fields::{row_concentration, row_count, row_start};

// "U at step j is that of the last row starting at or before j"; 0 where none does, which no accepted sheet has.
pub fn upstream_at(sheet: &[u8], j: u32) -> u32
    ensures { result ≡ rows_upstream sheet.now j }
{
    for r in (1..=row_count(sheet)).rev() {
        let row = r as usize - 1;
        if row_start(sheet, row) <= j {
            return row_concentration(sheet, row);
        }
    }
    0
}
