// Results of reading a file.
ghost use Rattle.std.specs.Prelude.{◌≡◌, IfOk};
ghost use Rattle.strip_answer.specs.declared.status.Status.TheVariants.{BadInstance};
ghost use Rattle.strip_answer.specs.Ending.{answer_text};
ghost use Rattle.strip_answer.specs.Rows.{error_row};
ghost use Rattle.strip_answer.specs.Said.{too_long_told, too_many_told};

use crate::{Answer, Status};
use std::alloc::Global;
use strip_io::Memory;
use strip_text::Told;

/// The result of reading a file: its content, or the answer that refuses it.
#[derive(Drop)]
pub enum Input<T> {
    /// The content of the text.
    Said(T),
    /// The answer to a file that isn't fit.
    Refused(Answer),
}

/// Returns the answer to a file that is too long.
pub(crate) fn too_long(alloc: Global, status: Status) -> Result<Answer, Memory>
    ensures status { IfOk result (λ answer. answer.status ≡ status) }
    ensures row { IfOk result (λ answer. answer_text answer ≡ error_row too_long_told) }
{
    Answer::error(alloc, status, Told::alone("TooLong", None, None))
}

/// Returns the answer to a film with more classes than can be solved or checked.
pub fn too_many_classes(alloc: Global, count: u64) -> Result<Answer, Memory>
    ensures status { IfOk result (λ answer. answer.status ≡ BadInstance) }
    ensures row { IfOk result (λ answer. answer_text answer ≡ error_row (too_many_told count)) }
{
    let told = Told::alone("TooManyClasses", Some(count), None);
    Answer::error(alloc, Status::BadInstance, told)
}
