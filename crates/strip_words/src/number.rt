// Numbers of decimal digits.
ghost use Rattle.std.specs.Prelude.{ℕ, IfSome, IfNone};
ghost use Rattle.strip_words.specs.Options.{IsNumber};

/// Returns the number that the digits spell, if it is from `least` to `most`.
pub(crate) fn number_of(word: &str, least: u64, most: u64) -> Option<u64>
    ensures some { IfSome result (IsNumber least most word.now) }
    ensures none { IfNone result ((n : ℕ) → ¬ IsNumber least most word.now n) }
{
    if word.is_empty() {
        return None;
    }
    let mut number: u64 = 0;
    for byte in word.as_bytes() {
        if !byte.is_ascii_digit() {
            return None;
        }
        number = number
            .checked_mul(10)?
            .checked_add(u64::from(*byte - b'0'))?;
    }
    if least <= number && number <= most {
        Some(number)
    } else {
        None
    }
}
