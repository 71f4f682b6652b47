// The reader of case files.
ghost use Rattle.std.specs.Prelude.{◌+◌, ◌<◌, ◌≤◌, vec_len, IfOk, OnOk};
ghost use Rattle.stripboard_cases.specs.CaseRows.{HasEachCase, case_lines};

use crate::blocks::{before_case, of_each};
use crate::case::{Action, Case, Cases, Given};
use crate::escapes::Value;
use crate::fault::{CaseFault, Wrong};
use crate::lines::{Line, lines_of};
use crate::making::actions_of;
use crate::words::words_of;
use std::alloc::Global;
use std::str;

/// The greatest number of cases that one case may stand for.
const MOST: usize = 100_000;

/// A name and the values that it takes in turn.
#[derive(Drop)]
struct Each {
    name: String,
    values: Vec<String>,
}

/// Reads the cases from the text of a case file, or finds its first fault.
pub fn read_cases(alloc: Global, text: &[u8]) -> Result<Cases, CaseFault>
    ensures each { IfOk result (HasEachCase text.now) }
{
    let text = match str::from_utf8(text) {
        Ok(text) => text,
        Err(_) => return Err(Wrong::NotUtf8.at(row_of_bad_byte(text))),
    };
    let lines = lines_of(alloc, text)?;
    cases_in(alloc, &lines)
}

/// Reads the cases from the lines of a case file.
fn cases_in(alloc: Global, lines: &[Line]) -> Result<Cases, CaseFault>
    ensures { IfOk result (λ cases. case_lines lines.now ≤ vec_len cases.cases) }
{
    let (front, behind) = lines.split_at(before_case(lines));
    let shared = shared_of(alloc, front)?;
    let cases = all_cases(alloc, behind)?;
    Ok(Cases { shared, cases })
}

/// Reads the files that all cases share.
fn shared_of(alloc: Global, lines: &[Line]) -> Result<Vec<Given>, CaseFault> {
    let mut shared = Vec::new(alloc);
    for action in actions_of(alloc, lines, &[])? {
        push_shared(action, &mut shared)?;
    }
    Ok(shared)
}

/// Appends a file that all cases share. A step before the first case is a fault.
fn push_shared(action: Action, shared: &mut Vec<Given>) -> Result<(), CaseFault> {
    match action {
        Action::Give(given) => match shared.push(given) {
            Ok(()) => Ok(()),
            Err(_) => Err(Wrong::Memory.at(1)),
        },
        Action::Run(_) => Err(Wrong::Place.at(1)),
    }
}

/// Reads the cases from the lines; the first line begins a case.
fn all_cases(alloc: Global, lines: &[Line]) -> Result<Vec<Case>, CaseFault>
    ensures { IfOk result (λ cases. case_lines lines.now ≤ vec_len cases) }
{
    let mut cases = Vec::new(alloc);
    let mut rest = lines;
    while let [head, behind @ ..] = rest {
        let (body, later) = behind.split_at(before_case(behind));
        push_cases(alloc, head, body, &mut cases)?;
        rest = later;
    }
    Ok(cases)
}

/// Returns the number of the row with the first byte that isn't UTF-8.
fn row_of_bad_byte(text: &[u8]) -> u64 {
    let mut row = 1u64;
    for line in text.split(|byte| *byte == b'\n') {
        if str::from_utf8(line).is_err() {
            return row;
        }
        row = row.saturating_add(1);
    }
    row
}

/// Appends the cases that a case stands for: one for each combination of its names' values.
fn push_cases(
    alloc: Global,
    head: &Line,
    body: &[Line],
    cases: &mut Vec<Case>,
) -> Result<(), CaseFault>
    ensures { OnOk result (vec_len cases.old < vec_len cases.new) }
{
    let (names, body) = body.split_at(of_each(body));
    let (all, count) = each_of_all(alloc, names)?;
    if count > MOST {
        return Err(Wrong::TooLong.at(head.row));
    }
    push_turns(alloc, head, body, &all, count, cases)
}

/// Appends the cases of `count` turns.
fn push_turns(
    alloc: Global,
    head: &Line,
    body: &[Line],
    all: &[Each],
    count: usize,
    cases: &mut Vec<Case>,
) -> Result<(), CaseFault>
    ensures { OnOk result (vec_len cases.old + count ≤ vec_len cases.new) }
{
    for number in 0..count {
        let values = chosen(alloc, all, number).map_err(|wrong| wrong.at(head.row))?;
        let case = case_of(alloc, head, body, &values)?;
        if cases.push(case).is_err() {
            return Err(Wrong::Memory.at(head.row));
        }
    }
    Ok(())
}

/// Reads the names of a case with their values, and returns them with the number of cases.
fn each_of_all(alloc: Global, lines: &[Line]) -> Result<(Vec<Each>, usize), CaseFault>
    ensures { IfOk result (λ all. 0 < all.1) }
{
    let mut all = Vec::new(alloc);
    let mut count = 1usize;
    for line in lines {
        let each = each_of(alloc, line.rest.as_str()).map_err(|wrong| wrong.at(line.row))?;
        count = count.saturating_mul(each.values.len());
        if all.push(each).is_err() {
            return Err(Wrong::Memory.at(line.row));
        }
    }
    Ok((all, count))
}

fn each_of(alloc: Global, text: &str) -> Result<Each, Wrong>
    ensures { IfOk result (λ each. 0 < vec_len each.values) }
{
    let mut words = words_of(alloc, text, &[])?.into_iter();
    let Some(name) = words.next() else {
        return Err(Wrong::Words);
    };
    let values: Vec<String> = words.collect(alloc)?;
    if values.is_empty() {
        return Err(Wrong::Words);
    }
    Ok(Each { name, values })
}

/// Returns the names' values in the turn of this number. Those of the last name change first.
fn chosen(alloc: Global, all: &[Each], number: usize) -> Result<Vec<Value>, Wrong> {
    let mut left = number;
    let mut values = Vec::new(alloc);
    for each in all.iter().rev() {
        let count = each.values.len();
        let place = left.checked_rem(count).unwrap_or(0);
        if let Some(text) = each.values.get(place) {
            values.push(value_of(&each.name, text)?)?;
        }
        left = left.checked_div(count).unwrap_or(0);
    }
    values.reverse();
    Ok(values)
}

fn value_of(name: &String, text: &String) -> Result<Value, Wrong> {
    Ok(Value {
        name: name.clone()?,
        text: text.clone()?,
    })
}

fn case_of(alloc: Global, head: &Line, body: &[Line], values: &[Value]) -> Result<Case, CaseFault> {
    let name = name_of(alloc, head.rest.as_str(), values).map_err(|wrong| wrong.at(head.row))?;
    let actions = actions_of(alloc, body, values)?;
    if !actions
        .iter()
        .any(|action| matches!(action, Action::Run(_)))
    {
        return Err(Wrong::NoStep.at(head.row));
    }
    Ok(Case { name, actions })
}

/// Returns the name of a case, with the values of its names.
fn name_of(alloc: Global, text: &str, values: &[Value]) -> Result<String, Wrong> {
    if text.trim().is_empty() {
        return Err(Wrong::Words);
    }
    let mut name = String::from_str(alloc, text.trim())?;
    for value in values {
        name.push_str(", ")?;
        name.push_str(value.text.as_str())?;
    }
    Ok(name)
}
