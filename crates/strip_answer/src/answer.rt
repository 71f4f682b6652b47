// Answers, and rows of faults.
ghost use Rattle.std.specs.Prelude.{◌≡◌, IfOk, map, string_bytes};
ghost use Rattle.strip_text.specs.Rows.{csv_row};
ghost use Rattle.strip_text.specs.Told.{told_data};
ghost use Rattle.strip_answer.specs.declared.status.Status.TheVariants.{NoJob};
ghost use Rattle.strip_answer.specs.Claims.{no_job_told};
ghost use Rattle.strip_answer.specs.Ending.{answer_text};
ghost use Rattle.strip_answer.specs.Rows.{error_row, number_field, told_row};

use crate::Status;
use std::alloc::{AllocError, Global};
use strip_film::Line;
use strip_io::Memory;
use strip_text::{Text, Told};

/// An exit status and the output: a text, followed by line rows, which are formatted while they are written.
#[derive(Debug, Drop)]
pub struct Answer {
    /// The exit status.
    pub status: Status,
    /// The text that is printed first.
    pub text: Vec<u8>,
    /// The lines whose rows follow the text.
    pub lines: Vec<Line>,
}

impl Answer {
    /// Makes the answer with this status and the `error` row of a fault.
    pub fn error(alloc: Global, status: Status, told: Told<'_>) -> Result<Answer, Memory>
        ensures status { IfOk result (λ answer. answer.status ≡ status) }
        ensures row { IfOk result (λ answer. answer_text answer ≡ error_row (told_data told.entry)) }
    {
        let text = told_row(alloc, b"error", told)?;
        let lines = Vec::new(alloc);
        Ok(Answer {
            status,
            text,
            lines,
        })
    }

    /// Makes the answer to words that name no job.
    pub fn no_job(alloc: Global) -> Result<Answer, Memory>
        ensures status { IfOk result (λ answer. answer.status ≡ NoJob) }
        ensures row { IfOk result (λ answer. answer_text answer ≡ error_row no_job_told) }
    {
        Answer::error(alloc, Status::NoJob, Told::alone("Words", None, None))
    }
}

/// Returns the row of a fault: this word, the fault's name, its two numbers, and the names that it lists. A missing
/// number is an empty field.
pub fn told_row(alloc: Global, word: &'static [u8], told: Told<'_>) -> Result<Vec<u8>, Memory>
    ensures { IfOk result (λ text. text.items ≡ told_row word.now (told_data told.entry)) }
{
    let first = number_field(alloc, told.first)?;
    let second = number_field(alloc, told.second)?;
    let mut fields: Vec<&[u8]> = Vec::new(alloc);
    fields.push(word)?;
    fields.push(told.name.as_bytes())?;
    fields.push(first.as_bytes())?;
    fields.push(second.as_bytes())?;
    for name in told.names {
        fields.push(name.as_bytes())?;
    }
    row_of(alloc, &fields)
}

/// Returns the text of a row with these fields.
fn row_of(alloc: Global, fields: &[&[u8]]) -> Result<Vec<u8>, Memory>
    ensures { IfOk result (λ text. text.items ≡ csv_row (map (λ field. field.now) fields.now)) }
{
    let mut text = Text::new(alloc);
    text.push(fields)?;
    text.into_bytes()
}

fn number_field(alloc: Global, number: Option<u64>) -> Result<String, AllocError>
    ensures { IfOk result (λ field. string_bytes field ≡ number_field number) }
{
    match number {
        Some(number) => number.to_string(alloc),
        None => Ok(String::new(alloc)),
    }
}
