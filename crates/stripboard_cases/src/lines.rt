// The rows of a case file, each with its head (first word).
ghost use Rattle.std.specs.Prelude.{◌≡◌, ◌+◌, ◌≤◌, true, cond, Some, IfOk, IsSomeAnd, OnOk, codes};
ghost use Rattle.stripboard_cases.specs.CaseRows.{case_lines, case_rows, first_word, is_case_row};

use crate::fault::{CaseFault, Wrong};
use std::alloc::Global;

/// The first word of a row, which tells the kind of the row.
#[derive(Clone, Copy, PartialEq, Eq, Debug)]
pub(crate) enum Head {
    Case,
    Each,
    File,
    Run,
    Text,
    Status,
    Row,
    Number,
    Keep,
    Reads,
    Writes,
}

/// A row with content: its number, its head, and its text after the head.
#[derive(Debug, Drop)]
pub(crate) struct Line {
    pub(crate) row: u64,
    pub(crate) head: Head,
    pub(crate) rest: String,
}

/// Returns the rows with content. Empty rows and those that begin with `#` have none.
pub(crate) fn lines_of(alloc: Global, text: &str) -> Result<Vec<Line>, CaseFault>
    ensures { IfOk result (λ lines. case_rows text.now ≤ case_lines lines.items) }
{
    let mut lines = Vec::new(alloc);
    let mut row = 0u64;
    for text in text.lines() {
        row = row.saturating_add(1);
        push_line(alloc, row, text, &mut lines).map_err(|wrong| wrong.at(row))?;
    }
    Ok(lines)
}

/// Appends the line of a row, if the row has content.
fn push_line(alloc: Global, row: u64, text: &str, lines: &mut Vec<Line>) -> Result<(), Wrong>
    ensures { OnOk result (case_lines lines.old.items + cond (is_case_row text.now) 1 0 ≤ case_lines lines.new.items) }
{
    match parts_of(text) {
        Some((head, rest)) => {
            let rest = String::from_str(alloc, rest)?;
            lines.push(Line { row, head, rest })?;
            Ok(())
        }
        None if text.trim().is_empty() || text.starts_with('#') => Ok(()),
        None => Err(Wrong::Head),
    }
}

/// Returns the head of a row, and the text after it and one blank.
fn parts_of(text: &str) -> Option<(Head, &str)>
    ensures { is_case_row text.now ≡ true → IsSomeAnd result (λ parts. parts.0 ≡ Head.Case) }
{
    let (word, rest) = split_word(text);
    if let Some(head) = head_of(word) {
        return Some((head, rest));
    }
    let rest = text.strip_prefix('|')?;
    Some((Head::Text, rest.strip_prefix(' ').unwrap_or(rest)))
}

/// Returns the first word of a row, and the text after it and one blank.
fn split_word(text: &str) -> (&str, &str)
    ensures { result.0.now ≡ first_word text.now }
{
    match text.split_once(' ') {
        Some(parts) => parts,
        None => (text, ""),
    }
}

fn head_of(word: &str) -> Option<Head>
    ensures { word.now ≡ codes "case" → result ≡ Some Head.Case }
{
    match word {
        "case" => Some(Head::Case),
        "each" => Some(Head::Each),
        "file" => Some(Head::File),
        "$" => Some(Head::Run),
        "status" => Some(Head::Status),
        "row" => Some(Head::Row),
        "number" => Some(Head::Number),
        "keep" => Some(Head::Keep),
        "reads" => Some(Head::Reads),
        "writes" => Some(Head::Writes),
        _ => None,
    }
}
