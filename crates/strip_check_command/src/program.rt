// The whole program, over given words, files and sink.
ghost use Rattle.std.specs.Prelude.{◌≡◌, Err, IfOk};
ghost use Rattle.strip_words.specs.Shown.{texts};
ghost use Rattle.strip_answer.specs.Claims.{AsksFor, IsDue};
ghost use Rattle.strip_answer.specs.Ending.{answer_text};
ghost use Rattle.strip_answer.specs.Headline.{IsHeadline};
ghost use Rattle.strip_answer.specs.Run.{FilesStay, HasReadFault, run_data};
ghost use Rattle.strip_check_command.specs.Claims.{IsProved, audit_claims};

use crate::auditing::audit;
use std::alloc::Global;
use strip_answer::{Answer, Stop, finish};
use strip_io::{Files, Sink};
use strip_words::{WordsFault, plan_files};

/// Checks the plan of the second named file against the film of the first, and returns the exit status. It takes all
/// its memory before it writes.
pub fn report<F: Files, S: Sink>(alloc: Global, words: &[String], files: &mut F, out: &mut S) -> u8
    ensures headline { IsHeadline audit_claims (run_data (texts words.now)
        (F.state files.old) (F.state files.new) (S.state out.old) (S.state out.new)) result }
    ensures proved { result ≡ 0 → IsProved (texts words.now) (F.state files.old) }
{
    let answer = answer_words(alloc, words, files);
    finish(out, &answer).code()
}

/// Returns the answer to the words: to the two files that they name, or to words that don't name two files.
fn answer_words<F: Files>(alloc: Global, words: &[String], files: &mut F) -> Result<Answer, Stop>
    ensures due { IfOk result (λ answer. IsDue audit_claims (texts words.now) (F.state files.old) (F.state files.new)
        answer.status (answer_text answer)) }
    ensures read { result ≡ Err Stop.Read → HasReadFault (F.state files.old) (F.state files.new)
        (AsksFor audit_claims (texts words.now) (F.state files.old)) }
    ensures files { FilesStay (F.state files.old) (F.state files.new)
        (AsksFor audit_claims (texts words.now) (F.state files.old)) (result ≡ Err Stop.Read) }
{
    // The words are those of the command `check` after its own word.
    match plan_files(alloc, "check", words) {
        Ok(names) => audit(alloc, files, &names),
        Err(WordsFault::BadWords) => Ok(Answer::no_job(alloc)?),
        Err(WordsFault::Memory) => Err(Stop::Memory),
    }
}
