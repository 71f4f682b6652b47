// The words of a row.
ghost use Rattle.std.specs.Prelude.{◌<◌, ◌≤◌, length, IfOk, IfSome};

use crate::escapes::{Value, expand};
use crate::fault::Wrong;
use std::alloc::Global;
use strip_text::number_of;

/// Returns the words of a text, separated by blanks. A text in single quotes is one word, even if it has blanks or is
/// empty.
pub(crate) fn words_of(alloc: Global, text: &str, values: &[Value]) -> Result<Vec<String>, Wrong> {
    let mut words = Vec::new(alloc);
    let mut rest = text.as_bytes();
    while let Some((word, behind)) = first_word(rest)? {
        words.push(word_of(alloc, word, values)?)?;
        rest = behind;
    }
    Ok(words)
}

fn word_of(alloc: Global, word: &[u8], values: &[Value]) -> Result<String, Wrong> {
    let mut bytes = Vec::new(alloc);
    expand(word, values, &mut bytes)?;
    String::from_utf8(bytes).ok().ok_or(Wrong::NotUtf8)
}

/// Returns the first word of a text without expansion, and the text after it.
fn first_word(text: &[u8]) -> Result<Option<(&[u8], &[u8])>, Wrong>
    ensures { IfOk result (λ word. IfSome word (λ parts. length parts.1.now < length text.now)) }
{
    let Some(start) = text.iter().position(|byte| *byte != b' ') else {
        return Ok(None);
    };
    let word = &text[start..];
    if let [b'\'', inside @ ..] = word {
        return match end_of(inside, b'\'') {
            Some(end) => Ok(Some((&inside[..end], &inside[end + 1..]))),
            None => Err(Wrong::Words),
        };
    }
    let end = end_of(word, b' ').unwrap_or(word.len()).max(1);
    Ok(Some((&word[..end], &word[end..])))
}

/// Returns the index of the first `stop` byte without a backslash before it.
fn end_of(text: &[u8], stop: u8) -> Option<usize>
    ensures { IfSome result (λ place. place < length text.now) }
{
    let mut is_escaped = false;
    for (place, byte) in text.iter().enumerate() {
        if *byte == stop && !is_escaped {
            return Some(place);
        }
        is_escaped = !is_escaped && *byte == b'\\';
    }
    None
}

/// Returns the number that a word spells, from `least` to `most`.
pub(crate) fn number_in(word: &str, least: u64, most: u64) -> Result<u64, Wrong>
    ensures { IfOk result (λ number. (least ≤ number) × (number ≤ most)) }
{
    number_of(word.as_bytes(), least, most).ok_or(Wrong::Number)
}

/// Returns the numbers that the words spell, at least one.
pub(crate) fn numbers_in(alloc: Global, words: &[String], most: u64) -> Result<Vec<u64>, Wrong> {
    if words.is_empty() {
        return Err(Wrong::Words);
    }
    let mut numbers = Vec::new(alloc);
    for word in words {
        numbers.push(number_in(word.as_str(), 0, most)?)?;
    }
    Ok(numbers)
}
