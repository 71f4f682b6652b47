// The request for progress rows.
ghost use Rattle.std.specs.Prelude.{◌≡◌, ◌↔◌, true, IfOk};
ghost use Rattle.strip_words.specs.Shown.{job_data, texts};
ghost use Rattle.stripboard.specs.Asking.{AskForProgress, is_told};

use std::alloc::Global;
use strip_io::Memory;
use strip_words::laws::words_name_one_job;
use strip_words::{Job, WordsFault, job};

/// Tells whether the words name a job to solve that asks for progress rows.
pub(crate) fn ask_for_progress(alloc: Global, words: &[String]) -> Result<bool, Memory>
    ensures { IfOk result (λ asked. (asked ≡ true) ↔ AskForProgress (texts words.now)) }
{
    words_name_one_job();
    match job(alloc, words) {
        Ok(job) => Ok(is_told(&job)),
        Err(WordsFault::BadWords) => Ok(false),
        Err(WordsFault::Memory) => Err(Memory),
    }
}

fn is_told(job: &Job) -> bool
    ensures { result ≡ is_told (job_data job.now) }
{
    match job {
        Job::Solve(job) => job.progress,
        _ => false,
    }
}
