// The solver, with one worker or several.
ghost use Rattle.std.specs.Prelude.{◌≤◌, IfSome};
ghost use Rattle.strip_solve.specs.Answer.{IsAnswerFor, MayBe};

use crate::solve::{solve_beside, solve_through};
use std::alloc::Global;
use std::sync::Wait;
use std::thread::{self, Threads};
use strip_hand::Gate;
use strip_model::Instance;
use strip_proof::Plan;
use strip_reduce::ReduceFault;
use strip_solve::SearchOptions;

/// Finds a plan of the instance with `workers` workers, 1 to 64; without a number, with as many as the machine has
/// processors. Several workers run in threads of the runtime. The gate gets reports of the search.
pub(crate) fn solve_by<R: Threads + Wait + Sync, G: Gate>(
    rt: &R,
    alloc: Global,
    inst: &Instance,
    options: SearchOptions,
    workers: Option<u32>,
    gate: &G,
) -> Result<Plan, ReduceFault>
    requires options { MayBe options }
    requires workers { IfSome workers (λ number. (1 ≤ number) × (number ≤ 64)) }
    ensures { IsAnswerFor options inst.now result }
{
    let workers = workers.unwrap_or_else(|| processors(rt));
    if workers == 1 {
        solve_through(alloc, inst, options, gate)
    } else {
        solve_beside(rt, alloc, inst, options, workers, gate)
    }
}

/// Returns the number of processors of the machine, at most 64, or 1 if it is unknown.
fn processors<R: Threads>(rt: &R) -> u32
    ensures { (1 ≤ result) × (result ≤ 64) }
{
    match thread::available_parallelism(rt) {
        Ok(count) => count.get().min(64) as u32,
        Err(_) => 1,
    }
}
