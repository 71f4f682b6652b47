// The end of a run.
ghost use Rattle.std.specs.Prelude.{◌≡◌, ◌≤◌, Ok, Err, OnOk, OnErr};
ghost use Rattle.strip_io.specs.Counts.{Rose};
ghost use Rattle.strip_io.specs.Sink.{Took, TookFront};
ghost use Rattle.strip_answer.specs.Ending.{IsEnd, answer_text};
ghost use Rattle.strip_answer.specs.declared.ending.Stop.TheVariants.{Memory as OutOfMemory};

use crate::{Answer, Status};
use strip_io::laws::texts_are_taken_in_parts;
use strip_io::{Failed, Memory, Sink, send};
use strip_proof::send_lines;

/// A reason why there is no answer.
#[derive(Clone, Copy, Debug, PartialEq, Eq)]
pub enum Stop {
    /// A read failed.
    Read,
    /// Memory ran out.
    Memory,
}

impl From<Memory> for Stop {
    ghost from_gives = { λ _ e. e ≡ OutOfMemory };

    fn from(_: Memory) -> Self {
        Stop::Memory
    }
}

/// Writes the answer's text, and returns its status. If there is no answer or a write fails, it returns the status of
/// that fault. Without an answer it writes no byte. It takes no memory.
pub fn finish<S: Sink>(out: &mut S, answer: &Result<Answer, Stop>) -> Status
    ensures ends { IsEnd answer.now (S.state out.old).taken (S.state out.new).taken (S.state out.old).faults
        (S.state out.new).faults result }
    ensures later { (S.state out.old).faults ≤ (S.state out.new).faults }
{
    match answer {
        Ok(answer) => match print(out, answer) {
            Ok(()) => answer.status,
            Err(Failed) => Status::WriteFault,
        },
        Err(Stop::Read) => Status::ReadFault,
        Err(Stop::Memory) => Status::OutOfMemory,
    }
}

/// Writes the answer's text, then the rows of its lines.
fn print<S: Sink>(out: &mut S, answer: &Answer) -> Result<(), Failed>
    ensures ok { OnOk result (Took (S.state out.old).taken (S.state out.new).taken (answer_text answer.now)) }
    ensures cause { OnErr result (Rose (S.state out.old).faults (S.state out.new).faults) }
    ensures front { OnErr result (TookFront (S.state out.old).taken (S.state out.new).taken (answer_text answer.now)) }
    ensures later { (S.state out.old).faults ≤ (S.state out.new).faults }
    ensures unfailed { OnOk result ((S.state out.new).faults ≡ (S.state out.old).faults) }
{
    texts_are_taken_in_parts();
    send(out, &answer.text)?;
    send_lines(out, &answer.lines)
}
