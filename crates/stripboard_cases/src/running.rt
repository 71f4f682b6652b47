// Runs of cases.
ghost use Rattle.std.specs.Prelude.{◌≡◌, [], Ok, None, Some, IfOk, OnOk};
ghost use Rattle.strip_io.specs.Held.{held_data};
ghost use Rattle.strip_io.specs.Memory.{memory_sink_data};
ghost use Rattle.strip_words.specs.Shown.{texts};
ghost use Rattle.strip_answer.specs.Run.{run_data};
ghost use Rattle.stripboard_cases.specs.AtHand.{AreApart, IsGiven};
ghost use Rattle.stripboard_cases.specs.Runs.{InTurn, IsCaseMet, IsDone, IsKept, IsClaimedBy, IsStepMet};

use crate::case::{Action, Case, Given, Held, Program, Step};
use crate::differing::difference;
use crate::files::{give, hold, source};
use std::alloc::Global;
use std::sync::Wait;
use std::thread::Threads;
use strip_hand::OpenGate;
use strip_io::{MemFiles, MemSink, Memory};

/// Runs a case with the shared files, and returns how its first differing step differs.
pub(crate) fn run_case<R: Threads + Wait + Sync>(
    rt: &R,
    alloc: Global,
    shared: &[Given],
    case: &Case,
) -> Result<Option<String>, Memory>
    ensures { result ≡ Ok None → IsCaseMet shared.now case.now }
{
    let mut files = Vec::new(alloc);
    match give_all(alloc, &mut files, shared)? {
        Some(difference) => Ok(Some(difference)),
        None => do_all(rt, alloc, &mut files, &case.actions),
    }
}

/// Stores the given files, and returns a message on the first that couldn't be made.
fn give_all(alloc: Global, files: &mut Vec<Held>, all: &[Given]) -> Result<Option<String>, Memory>
    ensures { result ≡ Ok None → InTurn IsGiven all.now files.old.items files.new.items }
{
    for given in all {
        if let Some(name) = give(alloc, files, given)? {
            return Ok(Some(no_file(alloc, &name)?));
        }
    }
    Ok(None)
}

/// Stores the files and runs the steps, and returns how the first differing one differs.
fn do_all<R: Threads + Wait + Sync>(
    rt: &R,
    alloc: Global,
    files: &mut Vec<Held>,
    actions: &[Action],
) -> Result<Option<String>, Memory>
    requires { AreApart files.old.items }
    ensures { result ≡ Ok None → InTurn IsDone actions.now files.old.items files.new.items }
{
    let mut steps = 0u64;
    for action in actions {
        if let Some(difference) = do_action(rt, alloc, files, action, &mut steps)? {
            return Ok(Some(difference));
        }
    }
    Ok(None)
}

/// Stores the file or runs the step, and counts it in `steps`.
fn do_action<R: Threads + Wait + Sync>(
    rt: &R,
    alloc: Global,
    files: &mut Vec<Held>,
    action: &Action,
    steps: &mut u64,
) -> Result<Option<String>, Memory>
    requires { AreApart files.old.items }
    ensures { result ≡ Ok None → IsDone action.now files.old.items files.new.items }
{
    match action {
        Action::Give(given) => match give(alloc, files, given)? {
            Some(name) => Ok(Some(no_file(alloc, &name)?)),
            None => Ok(None),
        },
        Action::Run(step) => {
            *steps = steps.saturating_add(1);
            match run_step(rt, alloc, files, step)? {
                Some(difference) => Ok(Some(format!(in alloc; "step {steps}: {difference}")?)),
                None => Ok(None),
            }
        }
    }
}

fn no_file(alloc: Global, name: &String) -> Result<String, Memory> {
    Ok(format!(in alloc; "no file '{name}', or no such row of it")?)
}

/// Runs a step, and returns how it differs from its expected results.
fn run_step<R: Threads + Wait + Sync>(
    rt: &R,
    alloc: Global,
    files: &mut Vec<Held>,
    step: &Step,
) -> Result<Option<String>, Memory>
    requires { AreApart files.old.items }
    ensures { result ≡ Ok None → IsStepMet step.now files.old.items files.new.items }
{
    let read_piece = (step.read_piece as usize).max(1);
    let mut source = source(alloc, files, read_piece, &step.failing_reads)?;
    let room = step.room as usize;
    let piece = (step.piece as usize).max(1);
    let mut out = MemSink::new(alloc, room, piece, &step.failing_writes)?;
    let status = run_program(rt, alloc, step.program, &step.words, &mut source, &mut out);
    keep(alloc, files, &step.keep, out.taken())?;
    difference(alloc, &step.wanted, status, out.taken(), files)
}

/// Runs the program, and returns its status.
fn run_program<R: Threads + Wait + Sync>(
    rt: &R,
    alloc: Global,
    program: Program,
    words: &[String],
    files: &mut MemFiles,
    out: &mut MemSink,
) -> u8
    ensures { IsClaimedBy program (run_data (texts words.now)
        (held_data files.old.files) (held_data files.new.files) (memory_sink_data out.old)
        (memory_sink_data out.new)) result }
{
    match program {
        Program::Stripboard => strip_top::run(rt, alloc, words, files, out, &OpenGate),
        Program::Stripcheck => strip_check_command::report(alloc, words, files, out),
    }
}

/// Stores the output under the name, if there is one.
fn keep(
    alloc: Global,
    files: &mut Vec<Held>,
    name: &Option<String>,
    printed: &[u8],
) -> Result<(), Memory>
    ensures { OnOk result (IsKept name.now printed.now files.old.items files.new.items) }
{
    if let Some(name) = name {
        hold(files, name.clone()?, Vec::from_slice(alloc, printed)?)?;
    }
    Ok(())
}
