// The meaning of a field's bytes.
ghost use Rattle.std.specs.Prelude.{◌≡◌, ◌≤◌, true, false, length, MatchOption};
ghost use Rattle.std.specs.List.{list_all};
ghost use Rattle.std.specs.Char.{digit_value, is_ascii_hexdigit};
ghost use Rattle.strip_text.specs.Number.{number_of};
ghost use Rattle.strip_proof.specs.Field.{is_amount, is_kind, is_scene, is_set, is_status, kind_of, scene_of, set_of, status_of};

use crate::plan::Status;
use strip_model::{Instance, Kind};
use strip_text::number_of;

// The greatest number that can be written in a plan text.
const MAX_AMOUNT: u64 = 9_223_372_036_854_775_807;

const SET_DIGITS: usize = 16;

/// Returns the status whose word the field is, or none if it is no such word.
pub(crate) fn status_of(field: &[u8]) -> Option<Status>
    ensures { MatchOption result (is_status field.now ≡ false)
        (λ status. (is_status field.now ≡ true) × (status ≡ status_of field.now)) }
{
    if field == b"optimal".as_slice() {
        Some(Status::Optimal)
    } else if field == b"bounded".as_slice() {
        Some(Status::Bounded)
    } else {
        None
    }
}

/// Returns the kind of bounds whose word the field is, or none if it is no such word.
pub(crate) fn kind_of(field: &[u8]) -> Option<Kind>
    ensures { MatchOption result (is_kind field.now ≡ false)
        (λ kind. (is_kind field.now ≡ true) × (kind ≡ kind_of field.now)) }
{
    if field == b"plain".as_slice() {
        Some(Kind::Plain)
    } else if field == b"pairs".as_slice() {
        Some(Kind::Pairs)
    } else if field == b"groups".as_slice() {
        Some(Kind::Groups)
    } else if field == b"arrivals".as_slice() {
        Some(Kind::Arrivals)
    } else {
        None
    }
}

/// Returns the number below 2 to the 63 that the field's digits spell, or none if they spell no such number.
pub(crate) fn amount_of(field: &[u8]) -> Option<u64>
    ensures { MatchOption result (is_amount field.now ≡ false)
        (λ amount. (is_amount field.now ≡ true) × (amount ≡ number_of field.now)) }
{
    number_of(field, 0, MAX_AMOUNT)
}

/// Returns the set that the field's hexadecimal digits spell, or none if the field isn't 1 to 16 such digits.
pub(crate) fn set_of(field: &[u8]) -> Option<u64>
    ensures { MatchOption result (is_set field.now ≡ false)
        (λ set. (is_set field.now ≡ true) × (set ≡ set_of field.now)) }
{
    if is_set(field) {
        Some(set_value(field))
    } else {
        None
    }
}

fn is_set(field: &[u8]) -> bool
    ensures { result ≡ is_set field.now }
{
    1 <= field.len() && field.len() <= SET_DIGITS && are_hex_digits(field)
}

fn are_hex_digits(bytes: &[u8]) -> bool
    ensures { result ≡ list_all is_ascii_hexdigit bytes.now }
{
    bytes.iter().all(|byte| byte.is_ascii_hexdigit())
}

fn set_value(digits: &[u8]) -> u64
    requires short { length digits.now ≤ 16 }
    requires digits { list_all is_ascii_hexdigit digits.now ≡ true }
    ensures { result ≡ set_of digits.now }
{
    let mut set = 0;
    for digit in digits {
        set = set * 16 + hex_value(*digit);
    }
    set
}

fn hex_value(digit: u8) -> u64
    requires { is_ascii_hexdigit digit ≡ true }
    ensures { result ≡ digit_value digit }
{
    let value = match digit {
        b'0'..=b'9' => digit - b'0',
        b'a'..=b'f' => digit - b'a' + 10,
        _ => digit - b'A' + 10,
    };
    u64::from(value)
}

/// Returns the number of the scene with this name, or none if no scene has it, by linear search.
pub(crate) fn scene_of(inst: &Instance, name: &[u8]) -> Option<u16>
    ensures { MatchOption result (is_scene inst.now name.now ≡ false)
        (λ scene. (is_scene inst.now name.now ≡ true) × (scene ≡ scene_of inst.now name.now)) }
{
    let mut number = 0;
    for scene in inst.scenes() {
        if name == scene.name.as_bytes() {
            return Some(number);
        }
        number += 1;
    }
    None
}
