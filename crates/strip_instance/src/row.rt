// The rows of a text, one at a time.
ghost use Rattle.std.specs.Prelude.{◌≡◌, ◌+◌, length, true, IfOk, IfErr};
ghost use Rattle.strip_instance.specs.declared.fault.InstanceFault.TheVariants.{Memory as OutOfMemory};
ghost use Rattle.strip_instance.specs.Parts.{actor_fields, is_before_row};
ghost use Rattle.strip_instance.specs.Shown.{rows_from};

use crate::fault::InstanceFault;
use crate::field::is_word;
use strip_text::{Row, Rows};

/// Reads the next row into `row`, and tells whether there was one.
pub(crate) fn next_row(rows: &mut Rows<'_>, row: &mut Row) -> Result<bool, InstanceFault>
    ensures found { IfOk result (λ there. rows.old.left ≡ rows_from there row.new rows.new.left) }
    ensures counted { IfOk result (λ there. (there ≡ true) → rows.new.number ≡ rows.old.number + 1) }
    ensures memory { IfErr result (λ fault. fault ≡ OutOfMemory) }
{
    Ok(rows.read(row)?)
}

/// Tells whether the row begins with the word of a pair's row.
pub(crate) fn is_before_row(row: &Row) -> bool
    ensures { result ≡ is_before_row row.now }
{
    is_word(b"before", row.field(0))
}

/// Returns the number of fields after the first two.
pub(crate) fn actor_count(row: &Row) -> usize
    ensures { result ≡ length (actor_fields row.now) }
{
    row.len().saturating_sub(2)
}
