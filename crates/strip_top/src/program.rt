// The whole program, over given words, files and sink.
ghost use Rattle.std.specs.Prelude.{◌≤◌, IfSome};
ghost use Rattle.std.specs.Thread.{IsSync};
ghost use Rattle.strip_solve.specs.Answer.{IsAnswerFor, MayBe};
ghost use Rattle.strip_words.specs.Shown.{texts};
ghost use Rattle.strip_answer.specs.Run.{run_data};
ghost use Rattle.strip_answer.specs.Headline.{IsHeadline};
ghost use Rattle.strip_commands.specs.Due.{board_claims};
ghost use Rattle.strip_commands.specs.Proved.{IsBoardProved};

use crate::solve::solve_alone;
use crate::solver::solve_by;
use std::alloc::Global;
use std::sync::Wait;
use std::thread::Threads;
use strip_commands::report_by;
use strip_hand::Gate;
use strip_io::{Files, Sink};
use strip_model::Instance;
use strip_proof::Plan;
use strip_reduce::ReduceFault;
use strip_solve::SearchOptions;

/// Runs the whole program, and returns its exit status. It reads the files that the words name, and takes all its
/// memory before it writes. One worker searches, even if the words ask for several.
pub fn report<F: Files, S: Sink>(alloc: Global, words: &[String], files: &mut F, out: &mut S) -> u8
    ensures headline { IsHeadline board_claims (run_data (texts words.now)
        (F.state files.old) (F.state files.new) (S.state out.old) (S.state out.new)) result }
    ensures proved { IsBoardProved (run_data (texts words.now)
        (F.state files.old) (F.state files.new) (S.state out.old) (S.state out.new)) result }
{
    report_by(
        alloc,
        &|inst: &Instance, options: SearchOptions, _workers: Option<u32>| -> Result<
            Plan,
            ReduceFault,
        >
            requires { MayBe options }
            ensures { IsAnswerFor options inst.now result }
        { solve_alone(alloc, inst, options) },
        words,
        files,
        out,
    )
}

/// Runs the whole program as `report` does, but with the number of workers that the words give. Several workers run in
/// threads of the runtime. The gate gets reports of a search.
pub fn run<R: Threads + Wait + Sync, F: Files, S: Sink, G: Gate>(
    rt: &R,
    alloc: Global,
    words: &[String],
    files: &mut F,
    out: &mut S,
    gate: &G,
) -> u8
    ensures headline { IsHeadline board_claims (run_data (texts words.now)
        (F.state files.old) (F.state files.new) (S.state out.old) (S.state out.new)) result }
    ensures proved { IsBoardProved (run_data (texts words.now)
        (F.state files.old) (F.state files.new) (S.state out.old) (S.state out.new)) result }
{
    report_by(
        alloc,
        &|inst: &Instance, options: SearchOptions, workers: Option<u32>| -> Result<
            Plan,
            ReduceFault,
        >
            requires { IsSync R.row × IsSync G.row × MayBe options
                × IfSome workers (λ number. (1 ≤ number) × (number ≤ 64)) }
            ensures { IsAnswerFor options inst.now result }
        { solve_by(rt, alloc, inst, options, workers, gate) },
        words,
        files,
        out,
    )
}
