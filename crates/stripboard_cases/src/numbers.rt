// The numbers of printed rows.
ghost use Rattle.std.specs.Prelude.{◌≡◌, ℕ, List, string_bytes, Contains, IfSome, IsTrue};
ghost use Rattle.stripboard_cases.specs.Met.{AreRelated, HasNumber, IsBound, IsHeld, IsNumberMet};

use crate::case::{Bound, Held, NumberWanted, Relation};
use crate::rows::behind_name;
use strip_text::number_of;

/// Tells whether the number was printed, and the number that it is compared with exists and agrees.
pub(crate) fn is_number_met(printed: &[u8], files: &[Held], wanted: &NumberWanted) -> bool
    ensures { IsTrue result → IsNumberMet printed.now files.now wanted.now }
{
    let Some(number) = number_named(printed, wanted.name.as_str()) else {
        return false;
    };
    let Some(bound) = bound_of(files, &wanted.bound) else {
        return false;
    };
    are_related(wanted.relation, number, bound)
}

fn are_related(relation: Relation, number: u64, bound: u64) -> bool
    ensures { IsTrue result → AreRelated relation number bound }
{
    match relation {
        Relation::Equal => number == bound,
        Relation::AtMost => number <= bound,
        Relation::AtLeast => number >= bound,
    }
}

fn bound_of(files: &[Held], bound: &Bound) -> Option<u64>
    ensures { IfSome result (IsBound files.now bound.now) }
{
    match bound {
        Bound::Number(number) => Some(*number),
        Bound::In { name, file } => number_in_file(files, name.as_str(), file.as_str()),
    }
}

/// Returns the number of this name in the file.
fn number_in_file(files: &[Held], name: &str, file: &str) -> Option<u64>
    ensures { IfSome result (λ number. (bytes : List ℕ) × IsHeld files.now file.now bytes
        × HasNumber bytes name.now number) }
{
    let held = file_of(files, file)?;
    number_named(&held.bytes, name)
}

/// Returns the first file of this name.
fn file_of<'a>(files: &'a [Held], name: &str) -> Option<&'a Held>
    ensures { IfSome result (λ held. Contains files.now held.now × (string_bytes held.now.name ≡ name.now)) }
{
    files.iter().find(|held| held.name.as_str() == name)
}

/// Returns the number of the first row of this name.
fn number_named(text: &[u8], name: &str) -> Option<u64>
    ensures { IfSome result (HasNumber text.now name.now) }
{
    number_of(behind_name(text, name.as_bytes())?, 0, u64::MAX)
}
