// The whole program, over given words, files, sink and solver.
ghost use Rattle.strip_words.specs.Shown.{texts};
ghost use Rattle.strip_answer.specs.Run.{run_data};
ghost use Rattle.strip_answer.specs.Headline.{IsHeadline};
ghost use Rattle.strip_commands.specs.Due.{board_claims};
ghost use Rattle.strip_commands.specs.Proved.{IsBoardProved};
ghost use Rattle.strip_commands.specs.Solver.{Solves};

use crate::answer::answer_words;
use std::alloc::Global;
use strip_answer::finish;
use strip_io::{Files, Sink};
use strip_model::Instance;
use strip_proof::Plan;
use strip_reduce::ReduceFault;
use strip_solve::SearchOptions;
use strip_words::laws::words_name_one_job;

/// Runs the whole program with any solver.
pub fn report_by<
    V: Fn(&Instance, SearchOptions, Option<u32>) -> Result<Plan, ReduceFault>,
    F: Files,
    S: Sink,
>(alloc: Global, solver: &V, words: &[String], files: &mut F, out: &mut S) -> u8
    requires { Solves (V.pre solver.now) (V.post solver.now) }
    ensures headline { IsHeadline board_claims (run_data (texts words.now)
        (F.state files.old) (F.state files.new) (S.state out.old) (S.state out.new)) result }
    ensures proved { IsBoardProved (run_data (texts words.now)
        (F.state files.old) (F.state files.new) (S.state out.old) (S.state out.new)) result }
{
    // The words name at most one job, so they fix its files.
    words_name_one_job();
    let answer = answer_words(alloc, solver, words, files);
    finish(out, &answer).code()
}
