// The answer to the words and the files, before anything is written.
ghost use Rattle.std.specs.Prelude.{◌≡◌, Err, IfOk};
ghost use Rattle.strip_words.specs.Shown.{job_data, texts};
ghost use Rattle.strip_answer.specs.Claims.{AsksFor, IsDue};
ghost use Rattle.strip_answer.specs.Ending.{answer_text};
ghost use Rattle.strip_answer.specs.Run.{FilesStay, HasReadFault};
ghost use Rattle.strip_commands.specs.Due.{IsDueFor, IsFileOf, IsWithin, board_claims};
ghost use Rattle.strip_commands.specs.Solver.{Solves};

use crate::arrange::ArrangeJob;
use crate::board::BoardJob;
use crate::convert::ConvertJob;
use crate::making::{print_film, try_film};
use crate::pricing::price_film;
use crate::reports::{DoodJob, SheetJob};
use crate::solve::solve;
use std::alloc::Global;
use strip_answer::{Answer, Stop, answer_plan};
use strip_check_command::audit;
use strip_io::Files;
use strip_model::Instance;
use strip_proof::Plan;
use strip_reduce::ReduceFault;
use strip_solve::SearchOptions;
use strip_words::laws::numbers_lie_within_their_ends;
use strip_words::{Job, WordsFault, job};

/// Returns the answer to the words: to the job that they name, or to words that name no job.
pub(crate) fn answer_words<
    V: Fn(&Instance, SearchOptions, Option<u32>) -> Result<Plan, ReduceFault>,
    F: Files,
>(alloc: Global, solver: &V, words: &[String], files: &mut F) -> Result<Answer, Stop>
    requires { Solves (V.pre solver.now) (V.post solver.now) }
    ensures due { IfOk result (λ answer. IsDue board_claims (texts words.now) (F.state files.old) (F.state files.new)
        answer.status (answer_text answer)) }
    ensures read { result ≡ Err Stop.Read → HasReadFault (F.state files.old) (F.state files.new)
        (AsksFor board_claims (texts words.now) (F.state files.old)) }
    ensures files { FilesStay (F.state files.old) (F.state files.new)
        (AsksFor board_claims (texts words.now) (F.state files.old)) (result ≡ Err Stop.Read) }
{
    numbers_lie_within_their_ends();
    match job(alloc, words) {
        Ok(job) => answer_job(alloc, solver, files, &job),
        Err(WordsFault::BadWords) => Ok(Answer::no_job(alloc)?),
        Err(WordsFault::Memory) => Err(Stop::Memory),
    }
}

/// Returns the answer to a job, by its command.
fn answer_job<V: Fn(&Instance, SearchOptions, Option<u32>) -> Result<Plan, ReduceFault>, F: Files>(
    alloc: Global,
    solver: &V,
    files: &mut F,
    job: &Job,
) -> Result<Answer, Stop>
    requires solves { Solves (V.pre solver.now) (V.post solver.now) }
    requires within { IsWithin (job_data job.now) }
    ensures due { IfOk result (λ answer. IsDueFor (job_data job.now) (F.state files.old) (F.state files.new)
        answer.status (answer_text answer)) }
    ensures read { result ≡ Err Stop.Read → HasReadFault (F.state files.old) (F.state files.new)
        (IsFileOf (job_data job.now) (F.state files.old)) }
    ensures files { FilesStay (F.state files.old) (F.state files.new)
        (IsFileOf (job_data job.now) (F.state files.old)) (result ≡ Err Stop.Read) }
{
    match job {
        Job::Solve(job) => solve(alloc, solver, files, job),
        Job::Price(names) => price_film(alloc, files, names),
        Job::Arrange(names) => answer_plan::<ArrangeJob, F>(alloc, files, names),
        Job::Check(names) => audit(alloc, files, names),
        Job::Convert(names) => answer_plan::<ConvertJob, F>(alloc, files, names),
        Job::Dood(names) => answer_plan::<DoodJob, F>(alloc, files, names),
        Job::Sheet(names) => answer_plan::<SheetJob, F>(alloc, files, names),
        Job::Board(names) => answer_plan::<BoardJob, F>(alloc, files, names),
        Job::Gen(film) => Ok(print_film(alloc, film)?),
        Job::Trial(job) => Ok(try_film(alloc, solver, job)?),
    }
}
