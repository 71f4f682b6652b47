// The command `solve`.
ghost use Rattle.std.specs.Prelude.{◌≡◌, ℕ, ◌^◌, ◌<◌, ◌≤◌, false, length, string_bytes, All, Err, Some, IfOk, IfSome};
ghost use Rattle.strip_io.specs.Counts.{ReadFailed};
ghost use Rattle.strip_words.specs.Shown.{solve_data};
ghost use Rattle.strip_words.specs.Jobs.{Solve as ToSolve};
ghost use Rattle.strip_proof.specs.Plan.{plan_data};
ghost use Rattle.strip_solve.specs.Answer.{MayBe};
ghost use Rattle.strip_answer.specs.Ending.{answer_text};
ghost use Rattle.strip_answer.specs.Run.{FilesStay};
ghost use Rattle.strip_answer.specs.Said.{IsSaidFilm};
ghost use Rattle.strip_commands.specs.Due.{IsWithin};
ghost use Rattle.strip_commands.specs.Plan.{exit_of, text_of};
ghost use Rattle.strip_commands.specs.Solve.{IsSolveAnswer, IsSolveDue};
ghost use Rattle.strip_commands.specs.Solver.{Solves};

use std::alloc::Global;
use strip_answer::{Answer, Input, Status, Stop, film_input, too_many_classes};
use strip_io::{Files, Memory};
use strip_model::{Instance, Kind};
use strip_proof::laws::written_plans_read_back;
use strip_proof::{Plan, Status as PlanStatus, head_text};
use strip_reduce::ReduceFault;
use strip_solve::SearchOptions;
use strip_words::SolveJob;

/// Returns the answer to a job: a plan of its file's film, or why there is none.
pub(crate) fn solve<
    V: Fn(&Instance, SearchOptions, Option<u32>) -> Result<Plan, ReduceFault>,
    F: Files,
>(alloc: Global, solver: &V, files: &mut F, job: &SolveJob) -> Result<Answer, Stop>
    requires solves { Solves (V.pre solver.now) (V.post solver.now) }
    requires within { IsWithin (ToSolve (solve_data job.now)) }
    ensures due { IfOk result (λ answer. IsSolveDue (solve_data job.now) (F.state files.old) (F.state files.new)
        answer.status (answer_text answer)) }
    ensures read { result ≡ Err Stop.Read
        → ReadFailed (string_bytes job.now.file) (F.state files.old).holds (F.state files.old).faults
        (F.state files.new).faults }
    ensures files { FilesStay (F.state files.old) (F.state files.new)
        (λ name. string_bytes job.now.file ≡ name) (result ≡ Err Stop.Read) }
{
    match film_input(alloc, files, job.file.as_str())? {
        Input::Said(inst) => Ok(solve_instance(alloc, solver, &inst, job)?),
        Input::Refused(answer) => Ok(answer),
    }
}

/// Returns the answer to an instance that was read from a text.
fn solve_instance<V: Fn(&Instance, SearchOptions, Option<u32>) -> Result<Plan, ReduceFault>>(
    alloc: Global,
    solver: &V,
    inst: &Instance,
    job: &SolveJob,
) -> Result<Answer, Memory>
    requires solves { Solves (V.pre solver.now) (V.post solver.now) }
    requires said { IsSaidFilm inst.now }
    requires within { IsWithin (ToSolve (solve_data job.now)) }
    ensures { IfOk result (λ answer. IsSolveAnswer (solve_data job.now) inst.now answer.status (answer_text answer)) }
{
    written_plans_read_back();
    match solver(inst, options_for(job), narrow(job.workers)) {
        Ok(plan) => answer_plan(alloc, inst, plan, job.proof),
        Err(ReduceFault::TooManyClasses { count }) => too_many_classes(alloc, count),
        Err(ReduceFault::Memory) => Err(Memory),
    }
}

/// Returns the options of a search from a job to solve.
fn options_for(job: &SolveJob) -> SearchOptions
    requires within { IsWithin (ToSolve (solve_data job.now)) }
    ensures may_be { MayBe result }
    ensures said { result ≡ record {
      kind = job.now.kind;
      nodes = job.now.nodes;
      entries = job.now.table;
      tries = job.now.tries;
      steps = job.now.steps;
      steal = job.now.steal;
      auto = job.now.auto;
    } }
{
    SearchOptions {
        steal: job.steal,
        auto: job.auto,
        ..options_of(job.kind, job.nodes, job.table, job.tries, job.steps)
    }
}

/// Returns the options of a search with these numbers and bounds, without work stealing and automatic choice.
pub(crate) fn options_of(
    kind: Kind,
    nodes: u64,
    table: u64,
    tries: Option<u64>,
    steps: Option<u64>,
) -> SearchOptions
    requires nodes { (1 ≤ nodes) × (nodes ≤ 16777216) }
    requires table { (64 ≤ table) × (table ≤ 4194304) }
    requires tries { IfSome tries (λ number. number ≤ 100000000) }
    requires steps { IfSome steps (λ number. (1 ≤ number) × (number ≤ 1000)) }
    ensures may_be { MayBe result }
    ensures said { result ≡ record {
      kind = kind;
      nodes = nodes;
      entries = table;
      tries = tries;
      steps = steps;
      steal = false;
      auto = false;
    } }
{
    SearchOptions {
        kind,
        nodes: nodes as u32,
        entries: table as u32,
        tries: narrow(tries),
        steps: narrow(steps),
        steal: false,
        auto: false,
    }
}

/// Returns the same number in 32 bits, or none for none.
fn narrow(number: Option<u64>) -> Option<u32>
    requires { (n : ℕ) → number ≡ Some n → n < 2 ^ 32 }
    ensures { result ≡ number }
{
    match number {
        Some(number) => Some(number as u32),
        None => None,
    }
}

/// Returns the answer that prints a plan, with its line rows if `proof` holds.
fn answer_plan(alloc: Global, inst: &Instance, plan: Plan, proof: bool) -> Result<Answer, Memory>
    requires { All (λ scene. scene < length inst.now.scenes) plan.order.items }
    ensures status { IfOk result (λ answer. answer.status ≡ exit_of plan.status) }
    ensures text { IfOk result (λ answer. answer_text answer ≡ text_of proof inst.now (plan_data plan)) }
{
    let status = status_of(plan.status);
    if proof {
        let text = head_text(alloc, inst, &plan, plan.lines.len() as u64)?;
        let lines = plan.lines;
        Ok(Answer {
            status,
            text,
            lines,
        })
    } else {
        let text = head_text(alloc, inst, &plan, 0)?;
        let lines = Vec::new(alloc);
        Ok(Answer {
            status,
            text,
            lines,
        })
    }
}

/// Returns the exit status of a plan.
pub(crate) fn status_of(status: PlanStatus) -> Status
    ensures { result ≡ exit_of status }
{
    match status {
        PlanStatus::Optimal => Status::Done,
        PlanStatus::Bounded => Status::Bounded,
    }
}
