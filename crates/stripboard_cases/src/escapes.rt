// Escapes of a text, and their expansion.
ghost use Rattle.std.specs.Prelude.{◌<◌, ◌≤◌, length, IfOk, IfSome};

use crate::fault::Wrong;
use std::str;
use strip_text::number_of;

/// The greatest length of an expanded text, in bytes. It is checked after each turn of a repetition.
const LONGEST: usize = 67_108_864;

/// The greatest number of turns of a repetition.
const MOST: u64 = 10_000_000;

/// A name that `each` defines, and its value in a case.
#[derive(Drop)]
pub(crate) struct Value {
    pub(crate) name: String,
    pub(crate) text: String,
}

/// Appends the expansion of the text.
pub(crate) fn expand(text: &[u8], values: &[Value], out: &mut Vec<u8>) -> Result<(), Wrong> {
    let mut rest = text;
    while let [byte, behind @ ..] = rest {
        if *byte != b'\\' {
            out.push(*byte)?;
            rest = behind;
        } else if let [b'*', repeated @ ..] = behind {
            rest = repeat(repeated, values, out)?;
        } else {
            rest = escape(behind, values, 1, out)?;
        }
    }
    Ok(())
}

/// Appends the expansion of a repetition, and returns the text after it. `text` follows the escape `\*`.
fn repeat<'a>(text: &'a [u8], values: &[Value], out: &mut Vec<u8>) -> Result<&'a [u8], Wrong>
    ensures { IfOk result (λ behind. length behind.now ≤ length text.now) }
{
    let Some(open) = text.iter().position(|byte| *byte == b'{') else {
        return Err(Wrong::Escape);
    };
    let times = number_of(&text[..open], 0, MOST).ok_or(Wrong::Number)?;
    let behind = &text[open..];
    let body = within(behind).ok_or(Wrong::Escape)?;
    expand_turns(body, values, times, out)?;
    // The body is enclosed in two braces.
    behind.get(body.len() + 2..).ok_or(Wrong::Escape)
}

/// Returns the text between the opening brace at the front and the brace that closes it.
fn within(text: &[u8]) -> Option<&[u8]>
    ensures { IfSome result (λ body. length body.now < length text.now) }
{
    let mut depth = 0u64;
    let mut is_escape = false;
    for (place, byte) in text.iter().enumerate() {
        match *byte {
            b'{' => depth = depth.saturating_add(1),
            b'}' if !is_escape => depth = depth.saturating_sub(1),
            _ => {}
        }
        if depth == 0 {
            return text.get(1..place);
        }
        is_escape = !is_escape && *byte == b'\\';
    }
    None
}

/// Appends the expansion of all turns of a repeated text.
fn expand_turns(text: &[u8], values: &[Value], times: u64, out: &mut Vec<u8>) -> Result<(), Wrong> {
    for turn in 0..times {
        expand_turn(text, values, turn + 1, out)?;
        if out.len() > LONGEST {
            return Err(Wrong::TooLong);
        }
    }
    Ok(())
}

/// Appends the expansion of one turn of a repeated text.
fn expand_turn(text: &[u8], values: &[Value], turn: u64, out: &mut Vec<u8>) -> Result<(), Wrong> {
    let mut rest = text;
    while let [byte, behind @ ..] = rest {
        if *byte == b'\\' {
            rest = escape(behind, values, turn, out)?;
        } else {
            out.push(*byte)?;
            rest = behind;
        }
    }
    Ok(())
}

/// Appends the expansion of an escape, and returns the text after it. `text` follows the backslash.
fn escape<'a>(
    text: &'a [u8],
    values: &[Value],
    turn: u64,
    out: &mut Vec<u8>,
) -> Result<&'a [u8], Wrong>
    ensures { IfOk result (λ behind. length behind.now ≤ length text.now) }
{
    let [kind, behind @ ..] = text else {
        return Err(Wrong::Escape);
    };
    match *kind {
        b'x' => push_byte(behind, out),
        b'u' => push_char(behind, out),
        b'{' => push_value(text, values, out),
        b'#' => {
            push_number(turn, out)?;
            Ok(behind)
        }
        b'+' => {
            push_number(turn.saturating_add(1), out)?;
            Ok(behind)
        }
        kind => {
            out.push(plain(kind).ok_or(Wrong::Escape)?)?;
            Ok(behind)
        }
    }
}

/// Returns the byte that an escape of one letter stands for.
fn plain(kind: u8) -> Option<u8> {
    match kind {
        b'n' => Some(b'\n'),
        b'r' => Some(b'\r'),
        b't' => Some(b'\t'),
        b'\\' | b'\'' | b'}' => Some(kind),
        _ => None,
    }
}

/// Appends the byte of two hexadecimal digits, and returns the text after them.
fn push_byte<'a>(text: &'a [u8], out: &mut Vec<u8>) -> Result<&'a [u8], Wrong>
    ensures { IfOk result (λ behind. length behind.now ≤ length text.now) }
{
    let [high, low, behind @ ..] = text else {
        return Err(Wrong::Escape);
    };
    out.push(digit(*high)? * 16 + digit(*low)?)?;
    Ok(behind)
}

fn digit(byte: u8) -> Result<u8, Wrong>
    ensures { IfOk result (λ digit. digit < 16) }
{
    match byte {
        b'0'..=b'9' => Ok(byte - b'0'),
        b'a'..=b'f' => Ok(byte - b'a' + 10),
        b'A'..=b'F' => Ok(byte - b'A' + 10),
        _ => Err(Wrong::Escape),
    }
}

/// Appends the character of the hexadecimal digits in braces, and returns the text after them.
fn push_char<'a>(text: &'a [u8], out: &mut Vec<u8>) -> Result<&'a [u8], Wrong>
    ensures { IfOk result (λ behind. length behind.now ≤ length text.now) }
{
    let (digits, behind) = braced(text)?;
    let number = u32::from_str_radix(digits, 16).ok().ok_or(Wrong::Escape)?;
    let character = char::from_u32(number).ok_or(Wrong::Escape)?;
    let mut room = [0; 4];
    out.extend_from_slice(character.encode_utf8(&mut room).as_bytes())?;
    Ok(behind)
}

/// Appends the value of a name in braces, and returns the text after them.
fn push_value<'a>(text: &'a [u8], values: &[Value], out: &mut Vec<u8>) -> Result<&'a [u8], Wrong>
    ensures { IfOk result (λ behind. length behind.now ≤ length text.now) }
{
    let (name, behind) = braced(text)?;
    for value in values {
        if value.name.as_str() == name {
            out.extend_from_slice(value.text.as_bytes())?;
            return Ok(behind);
        }
    }
    Err(Wrong::Escape)
}

fn push_number(number: u64, out: &mut Vec<u8>) -> Result<(), Wrong> {
    let alloc = *out.allocator();
    let digits = format!(in alloc; "{number}")?;
    out.extend_from_slice(digits.as_bytes())?;
    Ok(())
}

/// Returns the content of the braces at the front, and the text after them.
fn braced(text: &[u8]) -> Result<(&str, &[u8]), Wrong>
    ensures { IfOk result (λ parts. length parts.1.now ≤ length text.now) }
{
    let [b'{', inside @ ..] = text else {
        return Err(Wrong::Escape);
    };
    let Some(close) = inside.iter().position(|byte| *byte == b'}') else {
        return Err(Wrong::Escape);
    };
    match str::from_utf8(&inside[..close]) {
        Ok(name) => Ok((name, &inside[close + 1..])),
        Err(_) => Err(Wrong::Escape),
    }
}
