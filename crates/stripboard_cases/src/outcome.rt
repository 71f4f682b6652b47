// A run of the program over a host.
ghost use Rattle.std.specs.Prelude.{◌≡◌, ◌⊎◌, IfOk};
ghost use Rattle.std.specs.Process.{exit_status};
ghost use Rattle.strip_host.specs.Run.{run_over};
ghost use Rattle.strip_words.specs.Shown.{texts};
ghost use Rattle.stripboard_cases.specs.Judged.{IsJudgement};

use crate::judging::judge;
use std::process::ExitCode;
use std::rt;
use std::sync::Wait;
use std::thread::Threads;
use strip_host::{Host, exit_code};
use strip_io::Memory;

/// Runs the cases of the files that the host's words name, and prints the rows of `judge`. The exit code is its status,
/// or 9 if memory ran out.
pub fn run<R: rt::Files + Input + Print + AllocGlobal + Threads + Wait + Sync>(
    rt: &R,
    host: &mut Host<R>,
) -> ExitCode
    ensures { IsJudgement (run_over (texts host.old.words.items) host.old.files.held host.new.files.held
        host.old.out.faults host.new.out.faults) (exit_status result) ⊎ (exit_status result ≡ 9) }
{
    exit_code(run_cases(rt, host))
}

/// Runs the program `stripboard_cases`, and returns its status.
fn run_cases<R: rt::Files + Input + Print + AllocGlobal + Threads + Wait + Sync>(
    rt: &R,
    host: &mut Host<R>,
) -> Result<u8, Memory>
    ensures { IfOk result (IsJudgement (run_over (texts host.old.words.items) host.old.files.held
        host.new.files.held host.old.out.faults host.new.out.faults)) }
{
    let Host { words, files, out } = host;
    judge(rt, rt.alloc(), words, files, out)
}
