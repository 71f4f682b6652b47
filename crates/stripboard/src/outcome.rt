// A run of the program over a host.
ghost use Rattle.std.specs.Prelude.{◌≡◌, IfOk, OnErr};
ghost use Rattle.std.specs.Process.{exit_status};
ghost use Rattle.strip_answer.specs.Headline.{IsHeadline};
ghost use Rattle.strip_host.specs.Run.{run_over};
ghost use Rattle.strip_words.specs.Shown.{texts};
ghost use Rattle.strip_commands.specs.Due.{board_claims};

use crate::asking::ask_for_progress;
use std::process::ExitCode;
use std::rt;
use std::sync::Wait;
use std::thread::Threads;
use strip_hand::{Gate, OpenGate};
use strip_host::{Host, exit_code};
use strip_io::Memory;
use strip_progress::Progress;

/// Runs the program `stripboard` with the words, files and output of this host, and returns its exit code. It prints
/// progress rows on standard error only if the words ask for them.
pub fn run<R: rt::Files + Input + Print + Eprint + AllocGlobal + Threads + Wait + Sync>(
    rt: &R,
    host: &mut Host<R>,
) -> ExitCode
    ensures headline { IsHeadline board_claims (run_over (texts host.old.words.items) host.old.files.held
        host.new.files.held host.old.out.faults host.new.out.faults) (exit_status result) }
{
    exit_code(run_host(rt, host))
}

/// Runs the program, and returns its status.
fn run_host<R: rt::Files + Input + Print + Eprint + AllocGlobal + Threads + Wait + Sync>(
    rt: &R,
    host: &mut Host<R>,
) -> Result<u8, Memory>
    ensures ran { IfOk result (IsHeadline board_claims (run_over (texts host.old.words.items) host.old.files.held
        host.new.files.held host.old.out.faults host.new.out.faults)) }
    ensures untouched { OnErr result ((host.new.files.held ≡ host.old.files.held)
        × (host.new.out.faults ≡ host.old.out.faults)) }
{
    if ask_for_progress(rt.alloc(), &host.words)? {
        Ok(run_through(rt, host, &Progress::new(rt)))
    } else {
        Ok(run_through(rt, host, &OpenGate))
    }
}

/// Runs the program with reports of the search to the gate, and returns its status.
fn run_through<R: rt::Files + Input + Print + AllocGlobal + Threads + Wait + Sync, G: Gate>(
    rt: &R,
    host: &mut Host<R>,
    gate: &G,
) -> u8
    ensures { IsHeadline board_claims (run_over (texts host.old.words.items) host.old.files.held
        host.new.files.held host.old.out.faults host.new.out.faults) result }
{
    let Host { words, files, out } = host;
    strip_top::run(rt, rt.alloc(), words, files, out, gate)
}
