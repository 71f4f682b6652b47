//! The law of a shelf's entries: a function that does nothing when it runs but call other laws, with a theorem as its
//! contract.
ghost use Rattle.std.specs.Prelude.{List};
ghost use Rattle.strip_film.specs.declared.shared.Known.{Known};
ghost use Rattle.strip_book.specs.declared.pass.BookCopy.{BookCopy};
ghost use Rattle.strip_book.specs.Pass.{TableData};
ghost use Rattle.strip_stripes.specs.Shelf.{AreTrue, IsShelf};

use strip_lines::laws::{a_justified_list_is_true, the_rules_are_true};

/// Each entry of a shelf is a valid lower bound: it is at most the cost of finishing its set. `IsShelf` is the
/// invariant of `Shelf`, so this holds whenever the lock of a stripe is taken.
pub fn the_entries_of_a_shelf_are_true()
    ensures { (table : TableData) (copy : BookCopy) (buckets : List (List Known)) → IsShelf table copy buckets
        → AreTrue table buckets }
{
    the_rules_are_true();
    a_justified_list_is_true();
}
