// Files and steps, made from their lines.
use crate::blocks::before_action;
use crate::case::{Action, Base, Bound, Given, NumberWanted, Program, Relation, Step, Wanted};
use crate::escapes::{Value, expand};
use crate::fault::{CaseFault, Wrong};
use crate::lines::{Head, Line};
use crate::words::{number_in, numbers_in, words_of};
use std::alloc::Global;

/// The default of the greatest number of bytes that a write takes.
const PIECE: u64 = 65_536;

/// The greatest number of bytes that the output takes in all, which is also the default.
const ROOM: u64 = 16_777_216;

/// Makes the files and steps of some lines.
pub(crate) fn actions_of(
    alloc: Global,
    lines: &[Line],
    values: &[Value],
) -> Result<Vec<Action>, CaseFault> {
    let mut actions = Vec::new(alloc);
    let mut rest = lines;
    while let [head, behind @ ..] = rest {
        let (body, later) = behind.split_at(before_action(behind));
        push_action(alloc, head, body, values, &mut actions)?;
        rest = later;
    }
    Ok(actions)
}

/// Appends the file or the step that begins with this line.
fn push_action(
    alloc: Global,
    head: &Line,
    body: &[Line],
    values: &[Value],
    actions: &mut Vec<Action>,
) -> Result<(), CaseFault> {
    let action = match head.head {
        Head::File => Action::Give(given_of(alloc, head, body, values)?),
        Head::Run => Action::Run(step_of(alloc, head, body, values)?),
        _ => return Err(Wrong::Place.at(head.row)),
    };
    match actions.push(action) {
        Ok(()) => Ok(()),
        Err(_) => Err(Wrong::Memory.at(head.row)),
    }
}

fn given_of(
    alloc: Global,
    head: &Line,
    body: &[Line],
    values: &[Value],
) -> Result<Given, CaseFault> {
    let (name, base) = named_of(alloc, head.rest.as_str(), values).map_err(|wrong| wrong.at(
        head.row,
    ))?;
    let text = text_of(alloc, body, values)?;
    Ok(Given { name, base, text })
}

/// Returns the text of some lines, each of which has to be a row of a text.
fn text_of(alloc: Global, lines: &[Line], values: &[Value]) -> Result<Vec<u8>, CaseFault> {
    let mut text = Vec::new(alloc);
    for line in lines {
        if line.head != Head::Text {
            return Err(Wrong::Place.at(line.row));
        }
        push_row(line.rest.as_str(), values, &mut text).map_err(|wrong| wrong.at(line.row))?;
    }
    Ok(text)
}

/// Reads the name of a file, and the file that its rows are added to.
fn named_of(alloc: Global, text: &str, values: &[Value]) -> Result<(String, Base), Wrong> {
    let words = words_of(alloc, text, values)?;
    named_by(words.as_slice())
}

/// Reads the name from the first word, and the file that the rows are added to from the others.
fn named_by(words: &[String]) -> Result<(String, Base), Wrong> {
    let base = base_of(words)?;
    match words.first() {
        Some(name) => Ok((name.clone()?, base)),
        None => Err(Wrong::Words),
    }
}

/// Reads the file that the rows are added to from the words after a name.
fn base_of(words: &[String]) -> Result<Base, Wrong> {
    match words {
        [_] => Ok(Base::None),
        [_, is, of, behind @ ..] if is.as_str() == "is" => base_with(of, behind),
        _ => Err(Wrong::Words),
    }
}

/// Reads the place of the rows in the file `of`, from the words after its name.
fn base_with(of: &String, words: &[String]) -> Result<Base, Wrong> {
    match words {
        [] => Ok(Base::Behind(of.clone()?)),
        [and] if and.as_str() == "and" => Ok(Base::Behind(of.clone()?)),
        [but, row, number] if but.as_str() == "but" && row.as_str() == "row" => {
            base_within(of, number.as_str())
        }
        _ => Err(Wrong::Words),
    }
}

/// Makes the base whose row with this number is replaced by the rows.
fn base_within(of: &String, number: &str) -> Result<Base, Wrong> {
    Ok(Base::Within(of.clone()?, number_in(number, 1, u64::MAX)?))
}

/// Appends a row and its line feed. A backslash at the end of the row leaves the line feed out.
fn push_row(text: &str, values: &[Value], out: &mut Vec<u8>) -> Result<(), Wrong> {
    let text = text.as_bytes();
    let slashes = text.iter().rev().take_while(|byte| **byte == b'\\').count();
    if let [row @ .., b'\\'] = text
        && slashes % 2 == 1
    {
        return expand(row, values, out);
    }
    expand(text, values, out)?;
    out.push(b'\n')?;
    Ok(())
}

fn step_of(alloc: Global, head: &Line, body: &[Line], values: &[Value]) -> Result<Step, CaseFault> {
    let mut step = begun_of(alloc, head.rest.as_str(), values).map_err(|wrong| wrong.at(head.row))?;
    complete(alloc, head, body, values, &mut step)?;
    Ok(step)
}

/// Adds the content of the lines to a step. If they expect no output and keep none, the step has to print nothing.
fn complete(
    alloc: Global,
    head: &Line,
    body: &[Line],
    values: &[Value],
    step: &mut Step,
) -> Result<(), CaseFault> {
    for line in body {
        add_line(alloc, line, values, step).map_err(|wrong| wrong.at(line.row))?;
    }
    if step.wanted.statuses.is_empty() {
        return Err(Wrong::NoStatus.at(head.row));
    }
    let wanted = &step.wanted;
    if wanted.text.is_none()
        && wanted.rows.is_empty()
        && wanted.numbers.is_empty()
        && step.keep.is_none()
    {
        step.wanted.text = Some(Vec::new(alloc));
    }
    Ok(())
}

/// Makes the step of a command line, without expected results.
fn begun_of(alloc: Global, text: &str, values: &[Value]) -> Result<Step, Wrong> {
    let mut words = words_of(alloc, text, values)?.into_iter();
    let program = match words.next() {
        Some(word) => program_of(word.as_str()),
        None => None,
    };
    match program {
        Some(program) => Ok(step_for(alloc, program, words.collect(alloc)?)),
        None => Err(Wrong::Words),
    }
}

fn program_of(word: &str) -> Option<Program> {
    match word {
        "stripboard" => Some(Program::Stripboard),
        "stripcheck" => Some(Program::Stripcheck),
        _ => None,
    }
}

/// Makes the step that runs a program with these words, without expected results.
fn step_for(alloc: Global, program: Program, words: Vec<String>) -> Step {
    Step {
        program,
        words,
        failing_reads: Vec::new(alloc),
        read_piece: u64::MAX,
        failing_writes: Vec::new(alloc),
        piece: PIECE,
        room: ROOM,
        wanted: Wanted {
            statuses: Vec::new(alloc),
            text: None,
            rows: Vec::new(alloc),
            numbers: Vec::new(alloc),
        },
        keep: None,
    }
}

/// Adds the content of a line to a step.
fn add_line(alloc: Global, line: &Line, values: &[Value], step: &mut Step) -> Result<(), Wrong> {
    let rest = line.rest.as_str();
    if line.head == Head::Text {
        return add_text(alloc, rest, values, step);
    }
    if line.head == Head::Row {
        return add_row(alloc, rest, values, step);
    }
    let words = words_of(alloc, rest, values)?;
    add_words(alloc, line.head, &words, step)
}

/// Adds a row to the expected text.
fn add_text(alloc: Global, row: &str, values: &[Value], step: &mut Step) -> Result<(), Wrong> {
    let mut text = step.wanted.text.take().unwrap_or(Vec::new(alloc));
    push_row(row, values, &mut text)?;
    step.wanted.text = Some(text);
    Ok(())
}

/// Adds a row that has to be printed somewhere.
fn add_row(alloc: Global, text: &str, values: &[Value], step: &mut Step) -> Result<(), Wrong> {
    let mut row = Vec::new(alloc);
    expand(text.as_bytes(), values, &mut row)?;
    step.wanted.rows.push(row)?;
    Ok(())
}

/// Adds the words of a line to a step.
fn add_words(alloc: Global, head: Head, words: &[String], step: &mut Step) -> Result<(), Wrong> {
    match head {
        Head::Status => step.wanted.statuses = statuses_of(alloc, words)?,
        Head::Number => step.wanted.numbers.push(number_wanted(words)?)?,
        Head::Keep => step.keep = Some(only_word(words)?),
        Head::Reads => set_reads(alloc, words, step)?,
        Head::Writes => set_writes(alloc, words, step)?,
        _ => return Err(Wrong::Place),
    }
    Ok(())
}

fn statuses_of(alloc: Global, words: &[String]) -> Result<Vec<u8>, Wrong> {
    if words.is_empty() {
        return Err(Wrong::Words);
    }
    let mut statuses = Vec::new(alloc);
    for word in words {
        let status = number_in(word.as_str(), 0, 255)?;
        statuses.push(status as u8)?;
    }
    Ok(statuses)
}

fn only_word(words: &[String]) -> Result<String, Wrong> {
    match words {
        [word] => Ok(word.clone()?),
        _ => Err(Wrong::Words),
    }
}

/// Reads the numbers after the word `fail`.
fn failing(alloc: Global, words: &[String]) -> Result<Vec<u64>, Wrong> {
    match words {
        [fail, numbers @ ..] if fail.as_str() == "fail" => numbers_in(alloc, numbers, u64::MAX),
        _ => Err(Wrong::Words),
    }
}

/// Sets the reads of a step: which fail, or the greatest number of bytes of each.
fn set_reads(alloc: Global, words: &[String], step: &mut Step) -> Result<(), Wrong> {
    match words {
        [take, number] if take.as_str() == "take" => {
            step.read_piece = number_in(number.as_str(), 1, u64::MAX)?;
        }
        _ => step.failing_reads = failing(alloc, words)?,
    }
    Ok(())
}

/// Sets the writes of a step: which fail, or the greatest number of bytes of each, or of all.
fn set_writes(alloc: Global, words: &[String], step: &mut Step) -> Result<(), Wrong> {
    match words {
        [take, taken @ ..] if take.as_str() == "take" => return set_taken(taken, step),
        _ => step.failing_writes = failing(alloc, words)?,
    }
    Ok(())
}

fn set_taken(words: &[String], step: &mut Step) -> Result<(), Wrong> {
    match words {
        [number] => step.piece = number_in(number.as_str(), 1, ROOM)?,
        [number, all] if all.as_str() == "in-all" => {
            step.room = number_in(number.as_str(), 0, ROOM)?;
        }
        _ => return Err(Wrong::Words),
    }
    Ok(())
}

/// Reads a number and its comparison, such as `cost <= 13` or `cost = cost of plan.csv`.
fn number_wanted(words: &[String]) -> Result<NumberWanted, Wrong> {
    let [name, relation, bound @ ..] = words else {
        return Err(Wrong::Words);
    };
    let bound = bound_wanted(bound)?;
    Ok(NumberWanted {
        name: name.clone()?,
        relation: relation_of(relation.as_str()).ok_or(Wrong::Words)?,
        bound,
    })
}

/// Reads the number that another is compared with.
fn bound_wanted(words: &[String]) -> Result<Bound, Wrong> {
    match words {
        [number] => Ok(Bound::Number(number_in(number.as_str(), 0, u64::MAX)?)),
        [name, of, file] if of.as_str() == "of" => Ok(Bound::In {
            name: name.clone()?,
            file: file.clone()?,
        }),
        _ => Err(Wrong::Words),
    }
}

fn relation_of(word: &str) -> Option<Relation> {
    match word {
        "=" => Some(Relation::Equal),
        "<=" => Some(Relation::AtMost),
        ">=" => Some(Relation::AtLeast),
        _ => None,
    }
}
