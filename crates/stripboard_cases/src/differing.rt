// Differences between a step's results and the expected ones.
ghost use Rattle.std.specs.Prelude.{◌≡◌, All, Contains, Ok, None, IfSome, IsTrue};
ghost use Rattle.stripboard_cases.specs.Met.{HasRow, IsMet, IsNumberMet};

use crate::case::{Held, NumberWanted, Wanted};
use crate::numbers::is_number_met;
use crate::rows::{first_row, has_row};
use std::alloc::{AllocError, Global};
use strip_io::Memory;

/// Returns how a step with this status and output differs from its expected results, or none if it doesn't. The
/// difference is the status, the first row that differs, or a missing row or number. `files` are those available after
/// the step.
pub fn difference(
    alloc: Global,
    wanted: &Wanted,
    status: u8,
    printed: &[u8],
    files: &[Held],
) -> Result<Option<String>, Memory>
    ensures met { result ≡ Ok None → IsMet wanted.now status printed.now files.now }
{
    if !is_among(&wanted.statuses, status) {
        return Ok(Some(other_status(alloc, status, printed)?));
    }
    if let Some(text) = other_text(wanted, printed) {
        return Ok(Some(other_row(alloc, text, printed)?));
    }
    if let Some(row) = missing_row(&wanted.rows, printed) {
        return Ok(Some(no_row(alloc, row)?));
    }
    if let Some(number) = missing_number(&wanted.numbers, printed, files) {
        return Ok(Some(no_number(alloc, number.name.as_str())?));
    }
    Ok(None)
}

fn is_among(statuses: &[u8], status: u8) -> bool
    ensures { IsTrue result → Contains statuses.now status }
{
    statuses.contains(&status)
}

/// Returns the expected text, if another text was printed.
fn other_text<'a>(wanted: &'a Wanted, printed: &[u8]) -> Option<&'a [u8]>
    ensures { result ≡ None → IfSome wanted.now.text (λ text. text.items ≡ printed.now) }
{
    match &wanted.text {
        Some(text) if text.as_slice() != printed => Some(text),
        _ => None,
    }
}

/// Returns the status and the first printed row, as a message.
fn other_status(alloc: Global, status: u8, printed: &[u8]) -> Result<String, AllocError> {
    let first = match first_row(printed) {
        Some((row, _)) => String::from_utf8_lossy(alloc, row)?,
        None => String::new(alloc),
    };
    format!(in alloc; "status {status}, '{first}'")
}

/// Returns the first row in which the texts differ, printed and expected, as a message.
fn other_row(alloc: Global, wanted: &[u8], printed: &[u8]) -> Result<String, AllocError> {
    let mut number = 1u64;
    let mut left = printed;
    let mut due = wanted;
    while let Some((row, behind)) = first_row(left)
        && let Some((wanted, later)) = first_row(due)
    {
        if row != wanted {
            return told(alloc, number, row, wanted);
        }
        left = behind;
        due = later;
        number = number.saturating_add(1);
    }
    told(alloc, number, left, due)
}

fn told(alloc: Global, number: u64, row: &[u8], due: &[u8]) -> Result<String, AllocError> {
    let row = String::from_utf8_lossy(alloc, row)?;
    let due = String::from_utf8_lossy(alloc, due)?;
    format!(in alloc; "row {number} is '{row}' for '{due}'")
}

fn no_row(alloc: Global, row: &[u8]) -> Result<String, AllocError> {
    let row = String::from_utf8_lossy(alloc, row)?;
    format!(in alloc; "no row '{row}'")
}

fn no_number(alloc: Global, name: &str) -> Result<String, AllocError> {
    format!(in alloc; "no such number '{name}'")
}

/// Returns the first of the rows that wasn't printed.
fn missing_row<'a>(rows: &'a [Vec<u8>], printed: &[u8]) -> Option<&'a Vec<u8>>
    ensures { result ≡ None → All (λ row. HasRow printed.now row.items) rows.now }
{
    rows.iter().find(|row| !has_row(printed, row))
}

/// Returns the first of the numbers that the output doesn't meet.
fn missing_number<'a>(
    numbers: &'a [NumberWanted],
    printed: &[u8],
    files: &[Held],
) -> Option<&'a NumberWanted>
    ensures { result ≡ None → All (IsNumberMet printed.now files.now) numbers.now }
{
    numbers
        .iter()
        .find(|number| !is_number_met(printed, files, number))
}
