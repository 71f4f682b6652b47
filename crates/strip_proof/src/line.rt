// The line rows of a plan.
ghost use Rattle.std.specs.Prelude.{◌≡◌, ◌+◌, ◌<◌, ◌≤◌, ◌++◌, [], length};
ghost use Rattle.std.specs.Char.{digit_char};
ghost use Rattle.std.specs.Fmt.{decimal};
ghost use Rattle.strip_text.specs.Rows.{csv_row};
ghost use Rattle.strip_proof.specs.declared.line.TheConstants.{BOUND_DIGITS, MAX_ROW};
ghost use Rattle.strip_proof.specs.Rows.{line_row, set_field};

use itoa::write_digits;
use std::marker::Model;
use strip_film::Line;

// The word and its comma, the digits of a set, a comma, the digits of a bound, a line feed.
pub(crate) const MAX_ROW: usize = 5 + SET_DIGITS + 1 + BOUND_DIGITS + 1;

const SET_DIGITS: usize = 16;

const BOUND_DIGITS: usize = 20;

/// The text of a line row, modelled as its bytes. It takes no memory.
#[derive(Debug, Drop)]
pub struct LineText {
    buffer: [u8; MAX_ROW],
    // The text fills the end of the buffer, from this index on.
    from: usize,
}

impl Model for LineText {
    ghost use Rattle.std.specs.Prelude.{◌≤◌, ℕ, List, drop};
    ghost use Rattle.strip_proof.specs.declared.line.TheConstants.{MAX_ROW};

    ghost Value = { List ℕ };

    ghost view = { λ text. drop text.from text.buffer };

    ghost invariant = { λ text. text.from ≤ MAX_ROW };
}

impl LineText {
    /// Returns the bytes of the row, with the line feed at its end.
    pub fn bytes(&self) -> &[u8]
        ensures bytes { result.now ≡ self.now }
        ensures short { length result.now ≤ MAX_ROW }
    {
        &self.buffer[self.from..]
    }

    fn new() -> LineText
        ensures { result ≡ [] }
    {
        LineText {
            buffer: [0; MAX_ROW],
            from: MAX_ROW,
        }
    }

    /// Writes these bytes in front of the text.
    fn prepend(&mut self, bytes: &[u8])
        requires { length bytes.now + length self.old ≤ MAX_ROW }
        ensures { self.new ≡ bytes.now ++ self.old }
    {
        let end = self.from;
        self.from -= bytes.len();
        self.buffer[self.from..end].copy_from_slice(bytes);
    }

    /// Writes the digits of the number in front of the text.
    fn prepend_number(&mut self, number: u64)
        requires { BOUND_DIGITS + length self.old ≤ MAX_ROW }
        ensures text { self.new ≡ decimal number ++ self.old }
        ensures short { length (decimal number) ≤ BOUND_DIGITS }
    {
        self.from = write_digits(number, &mut self.buffer, self.from);
    }
}

/// Returns the row of a line: the set as 16 hexadecimal digits, the bound in decimal. It takes a turn for each digit.
pub fn line_text(line: &Line) -> LineText
    ensures { result ≡ csv_row (line_row line.now) }
{
    // From the end to the start, since the number of the bound's digits isn't known before.
    let mut text = LineText::new();
    text.prepend(b"\n");
    text.prepend_number(line.bound);
    text.prepend(b",");
    text.prepend(&set_digits(line.set));
    text.prepend(b"line,");
    text
}

fn set_digits(set: u64) -> [u8; SET_DIGITS]
    ensures { result ≡ set_field set }
{
    let mut digits = [0; SET_DIGITS];
    let mut rest = set;
    for place in 0..SET_DIGITS {
        digits[SET_DIGITS - 1 - place] = hex_digit(rest % 16);
        rest /= 16;
    }
    digits
}

fn hex_digit(value: u64) -> u8
    requires { value < 16 }
    ensures { result ≡ digit_char value }
{
    if value < 10 {
        b'0' + value as u8
    } else {
        b'a' + (value - 10) as u8
    }
}
