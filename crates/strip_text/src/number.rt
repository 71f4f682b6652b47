// Numbers of decimal digits.
ghost use Rattle.std.specs.Prelude.{◌≡◌, true, false, MatchOption};
ghost use Rattle.std.specs.Str.{all_ascii_digits};
ghost use Rattle.strip_text.specs.Number.{is_number, number_of};

use std::str;

/// Returns the decimal number in the field, if it is at least `least` and at most `most`. It returns none for other
/// numbers, and if the field isn't one or more digits.
pub fn number_of(field: &[u8], least: u64, most: u64) -> Option<u64>
    ensures { MatchOption result (is_number least most field.now ≡ false)
        (λ number. (is_number least most field.now ≡ true) × (number ≡ number_of field.now)) }
{
    if !are_digits(field) {
        return None;
    }
    let Ok(digits) = str::from_utf8(field) else {
        return None;
    };
    let Ok(number) = digits.parse::<u64>() else {
        return None;
    };
    (least <= number && number <= most).then_some(number)
}

fn are_digits(bytes: &[u8]) -> bool
    ensures { result ≡ all_ascii_digits bytes.now }
{
    bytes.iter().all(|byte| byte.is_ascii_digit())
}
