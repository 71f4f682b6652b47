// The rows of a plan text, one at a time.
ghost use Rattle.std.specs.Prelude.{◌≡◌, ◌∷◌, [], true, false, IfOk, OnOk, IfErr};
ghost use Rattle.strip_text.specs.Checks.{checks_of_one};
ghost use Rattle.strip_proof.specs.declared.fault.PlanFault.TheVariants.{Memory as OutOfMemory, Missing};
ghost use Rattle.strip_proof.specs.Faults.{Makes, begins, has_row};

use crate::fault::PlanFault;
use strip_text::{Row, Rows};

/// Reads the next row into `row`, and tells whether there was one.
pub(crate) fn next_row(rows: &mut Rows<'_>, row: &mut Row) -> Result<bool, PlanFault>
    ensures found { IfOk result (λ there. (there ≡ true) → rows.old.left ≡ row.new ∷ rows.new.left) }
    ensures ended { IfOk result (λ there. (there ≡ false) → rows.old.left ≡ []) }
    ensures memory { IfErr result (λ fault. fault ≡ OutOfMemory) }
{
    Ok(rows.read(row)?)
}

/// Reads the required row with this number.
pub(crate) fn read_due(rows: &mut Rows<'_>, row: &mut Row, number: u64) -> Result<(), PlanFault>
    ensures makes { Makes (checks_of_one (has_row rows.old.left) (Missing number)) result }
    ensures found { OnOk result (rows.old.left ≡ row.new ∷ rows.new.left) }
{
    if !next_row(rows, row)? {
        return Err(PlanFault::Missing { which: number });
    }
    Ok(())
}

/// Tells whether the row begins with the word and has `width` fields.
pub(crate) fn begins(word: &[u8], width: usize, row: &Row) -> bool
    ensures { result ≡ begins word.now width row.now }
{
    row.len() == width && row.field(0) == word
}
