// The boundary rows of a sheet as the two lists in which U is looked up.
ghost use Rattle.std.specs.Prelude.{◌≡◌};
ghost use Rattle.model.specs.Sheet.{row_starts, row_concentrations};
ghost use Rattle.terms.specs.Says.{finding_says};
ghost use Rattle.sheet.specs.Rows.{row_list_test, row_list_after};

use crate::fields::{row_concentration, row_count, row_start};
use lists::any_short;
use terms::{Fault, Refusal};

// Fills the two lists' first entries from the sheet, one for each row.
// By index: the two lists, which document 01 and C have side by side, are read off the sheet by j.
pub fn copy_rows(
    sheet: &[u8],
    starts: &mut [u32],
    concentrations: &mut [u32],
) -> Result<(), Refusal>
    ensures found { finding_says result ≡ row_list_test sheet.now starts.old concentrations.old }
    ensures starts { starts.new ≡ row_list_after (finding_says result) (row_starts sheet.now) starts.old }
    ensures concentrations { let s = sheet.now in
        concentrations.new ≡ row_list_after (finding_says result) (row_concentrations s) concentrations.old }
{
    let count = row_count(sheet) as usize;
    Fault::ListLength.test(any_short(count, &[starts.len(), concentrations.len()]))?;
    for j in 0..count {
        starts[j] = row_start(sheet, j);
        concentrations[j] = row_concentration(sheet, j);
    }
    Ok(())
}
