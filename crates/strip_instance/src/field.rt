// The meaning of a field's bytes.
ghost use Rattle.std.specs.Prelude.{◌≡◌, true, false, MatchOption, IfOk};
ghost use Rattle.std.specs.List.{list_all};
ghost use Rattle.std.specs.Str.{is_utf8};
ghost use Rattle.strip_text.specs.Checks.{checks_of_one};
ghost use Rattle.strip_instance.specs.Fault.{NotUtf8};
ghost use Rattle.strip_instance.specs.Field.{is_kept, is_mark, is_name, is_name_byte, is_scene_name, is_word, is_work_mark};
ghost use Rattle.strip_instance.specs.Checks.{Makes};

use crate::fault::InstanceFault;
use std::str;
use strip_model::MAX_NAME;

/// Tells whether the field is the word, without regard to the case of ASCII letters.
pub(crate) fn is_word(word: &[u8], field: &[u8]) -> bool
    ensures { result ≡ is_word word.now field.now }
{
    field.eq_ignore_ascii_case(word)
}

pub(crate) fn is_name(field: &[u8]) -> bool
    ensures { result ≡ is_name field.now }
{
    !field.is_empty() && field.len() <= MAX_NAME && are_name_bytes(field)
}

fn are_name_bytes(bytes: &[u8]) -> bool
    ensures { result ≡ list_all is_name_byte bytes.now }
{
    bytes.iter().all(|byte| is_name_byte(*byte))
}

fn is_name_byte(byte: u8) -> bool
    ensures { result ≡ is_name_byte byte }
{
    byte >= 0x20 && byte != 0x7f
}

pub(crate) fn is_scene_name(field: &[u8]) -> bool
    ensures { result ≡ is_scene_name field.now }
{
    is_name(field) && !is_kept(field)
}

fn is_kept(field: &[u8]) -> bool
    ensures { result ≡ is_kept field.now }
{
    is_word(b"rate", field) || is_word(b"hold", field) || is_word(b"before", field)
}

/// Returns whether the mark means that the actor works, or none if the field is no mark.
pub(crate) fn mark_meaning(field: &[u8]) -> Option<bool>
    ensures { MatchOption result (is_mark field.now ≡ false)
        (λ working. (is_mark field.now ≡ true) × (working ≡ is_work_mark field.now)) }
{
    match field {
        b"x" | b"X" | b"1" => Some(true),
        b"" | b"." | b"-" | b"0" => Some(false),
        _ => None,
    }
}

/// Returns the field as text, or the fault `NotUtf8`.
pub(crate) fn text_of(field: &[u8], row: u64, col: u64) -> Result<&str, InstanceFault>
    ensures makes { Makes (checks_of_one (is_utf8 field.now) (NotUtf8 row col)) result }
    ensures same { IfOk result (λ text. text.now ≡ field.now) }
{
    match str::from_utf8(field) {
        Ok(text) => Ok(text),
        Err(_) => Err(InstanceFault::NotUtf8 { row, col }),
    }
}
