// The words that name jobs.
ghost use Rattle.std.specs.Prelude.{◌≡◌, IfOk, IfErr};
ghost use Rattle.strip_words.specs.declared.fault.WordsFault.TheVariants.{BadWords as NoJob};
ghost use Rattle.strip_words.specs.Jobs.{NameJob, NameNoJob};
ghost use Rattle.strip_words.specs.Shown.{texts, job_data};

use crate::WordsFault;
use crate::films::film_file;
use crate::jobs::Job;
use crate::making::{gen_job, trial_job};
use crate::plans::plan_files;
use crate::solve::solve_job;
use std::alloc::Global;

/// Returns the job that the words name. The program's own name is not among the words. It fails with `BadWords` if they
/// name none, and with `Memory` if memory runs out.
pub fn job(alloc: Global, words: &[String]) -> Result<Job, WordsFault>
    ensures named { IfOk result (λ job. NameJob (texts words.now) (job_data job)) }
    ensures bad { IfErr result (λ e. e ≡ NoJob → NameNoJob (texts words.now)) }
{
    let [word, later @ ..] = words else {
        return Err(WordsFault::BadWords);
    };
    let word = word.as_str();
    if word == "solve" {
        Ok(Job::Solve(solve_job(alloc, later)?))
    } else if word == "price" {
        Ok(Job::Price(film_file(alloc, "price", later)?))
    } else if word == "arrange" {
        Ok(Job::Arrange(plan_files(alloc, "arrange", later)?))
    } else if word == "check" {
        Ok(Job::Check(plan_files(alloc, "check", later)?))
    } else if word == "convert" {
        Ok(Job::Convert(plan_files(alloc, "convert", later)?))
    } else if word == "dood" {
        Ok(Job::Dood(plan_files(alloc, "dood", later)?))
    } else if word == "sheet" {
        Ok(Job::Sheet(plan_files(alloc, "sheet", later)?))
    } else if word == "board" {
        Ok(Job::Board(plan_files(alloc, "board", later)?))
    } else if word == "gen" {
        Ok(Job::Gen(gen_job(alloc, later)?))
    } else if word == "trial" {
        Ok(Job::Trial(trial_job(alloc, later)?))
    } else {
        Err(WordsFault::BadWords)
    }
}
