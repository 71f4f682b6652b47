// The commands `gen` and `trial`.
ghost use Rattle.std.specs.Prelude.{◌≡◌, ◌<◌, ◌≤◌, IfOk};
ghost use Rattle.strip_model.specs.FilmOf.{film_of};
ghost use Rattle.strip_reduce.specs.Reduction.{class_count};
ghost use Rattle.strip_proof.specs.Plan.{plan_data};
ghost use Rattle.strip_check.specs.Accepted.{IsAccepted};
ghost use Rattle.strip_answer.specs.Ending.{answer_text};
ghost use Rattle.strip_words.specs.Gen.{IsSized};
ghost use Rattle.strip_words.specs.Jobs.{Trial as ToTrial};
ghost use Rattle.strip_words.specs.Shown.{gen_data, trial_data};
ghost use Rattle.strip_commands.specs.Due.{IsWithin};
ghost use Rattle.strip_commands.specs.Made.{IsGenDue, IsTrialDue, made_of, trial_row};
ghost use Rattle.strip_commands.specs.Plan.{exit_of};
ghost use Rattle.strip_commands.specs.Solver.{Solves};

use crate::drawing::generate;
use crate::laws::what_is_made_has_readable_names;
use crate::reports::printed;
use crate::solve::{options_of, status_of};
use std::alloc::Global;
use strip_answer::{Answer, too_many_classes};
use strip_check::{CheckFault, Verdict, check};
use strip_instance::write_instance;
use strip_io::Memory;
use strip_model::Instance;
use strip_proof::{Plan, status_word};
use strip_reduce::{ReduceFault, reduce};
use strip_solve::SearchOptions;
use strip_text::Text;
use strip_words::{GenJob, TrialJob};

/// Returns the answer that prints the film generated from a seed.
pub(crate) fn print_film(alloc: Global, job: &GenJob) -> Result<Answer, Memory>
    requires { IsSized (gen_data job.now) }
    ensures { IfOk result (λ answer. IsGenDue (gen_data job.now) answer.status (answer_text answer)) }
{
    what_is_made_has_readable_names();
    let inst = film_made(alloc, job)?;
    let text = write_instance(alloc, &inst)?;
    Ok(printed(alloc, text))
}

/// Generates the film of a seed.
fn film_made(alloc: Global, job: &GenJob) -> Result<Instance, Memory>
    requires { IsSized (gen_data job.now) }
    ensures { IfOk result (λ inst. inst ≡ made_of (gen_data job.now)) }
{
    generate(alloc, job.number, job.scenes as u32, job.actors as u32)
}

/// Returns the answer to a trial: it generates a film, solves it, and checks the plan.
pub(crate) fn try_film<V: Fn(&Instance, SearchOptions, Option<u32>) -> Result<Plan, ReduceFault>>(
    alloc: Global,
    solver: &V,
    job: &TrialJob,
) -> Result<Answer, Memory>
    requires solves { Solves (V.pre solver.now) (V.post solver.now) }
    requires within { IsWithin (ToTrial (trial_data job.now)) }
    ensures { IfOk result (λ answer. IsTrialDue (trial_data job.now) answer.status (answer_text answer)) }
{
    let inst = film_made(alloc, &job.film)?;
    match reduce(alloc, &inst) {
        Ok(reduced) => try_classes(alloc, solver, &inst, job, reduced.film.casts().len()),
        Err(ReduceFault::TooManyClasses { count }) => too_many_classes(alloc, count),
        Err(ReduceFault::Memory) => Err(Memory),
    }
}

/// Returns the answer to a trial of an instance with `classes` classes, at most 64. One worker solves it.
fn try_classes<V: Fn(&Instance, SearchOptions, Option<u32>) -> Result<Plan, ReduceFault>>(
    alloc: Global,
    solver: &V,
    inst: &Instance,
    job: &TrialJob,
    classes: usize,
) -> Result<Answer, Memory>
    requires solves { Solves (V.pre solver.now) (V.post solver.now) }
    requires within { IsWithin (ToTrial (trial_data job.now)) }
    requires made { inst.now ≡ made_of (gen_data job.now.film) }
    requires classes { classes ≡ class_count (film_of inst.now) }
    requires few { classes ≤ 64 }
    ensures { IfOk result (λ answer. IsTrialDue (trial_data job.now) answer.status (answer_text answer)) }
{
    let options = options_of(job.kind, job.nodes, job.table, job.tries, job.steps);
    match solver(inst, options, Some(1)) {
        Ok(plan) => try_plan(alloc, inst, job, classes, &plan),
        Err(ReduceFault::TooManyClasses { .. }) => unreachable!("there are at most 64 classes"),
        Err(ReduceFault::Memory) => Err(Memory),
    }
}

/// Returns the answer to a trial with this plan.
fn try_plan(
    alloc: Global,
    inst: &Instance,
    job: &TrialJob,
    classes: usize,
    plan: &Plan,
) -> Result<Answer, Memory>
    requires accepted { IsAccepted (film_of inst.now) (plan_data plan.now) }
    requires classes { classes ≡ class_count (film_of inst.now) }
    requires few { classes ≤ 64 }
    ensures status { IfOk result (λ answer. answer.status ≡ exit_of plan.now.status) }
    ensures text { IfOk result (λ answer. answer_text answer
        ≡ trial_row (gen_data job.now.film) (class_count (film_of inst.now)) (plan_data plan.now)) }
{
    match check(alloc, inst, plan) {
        Ok(Verdict::Accepted) => tried(alloc, &job.film, classes, plan),
        Ok(Verdict::Refused(_)) => unreachable!("a plan that was found is accepted"),
        Err(CheckFault::TooManyClasses { .. }) => unreachable!("there are at most 64 classes"),
        Err(CheckFault::Memory) => Err(Memory),
    }
}

/// Returns the answer that prints the row of a trial.
fn tried(alloc: Global, film: &GenJob, classes: usize, plan: &Plan) -> Result<Answer, Memory>
    requires { classes ≤ 64 }
    ensures status { IfOk result (λ answer. answer.status ≡ exit_of plan.now.status) }
    ensures text { IfOk result (λ answer. answer_text answer
        ≡ trial_row (gen_data film.now) classes (plan_data plan.now)) }
{
    Ok(Answer {
        status: status_of(plan.status),
        text: trial_text(alloc, film, classes, plan)?,
        lines: Vec::new(alloc),
    })
}

/// Returns the row of a trial.
fn trial_text(alloc: Global, film: &GenJob, classes: usize, plan: &Plan) -> Result<Vec<u8>, Memory>
    requires { classes ≤ 64 }
    ensures { IfOk result (λ text. text.items ≡ trial_row (gen_data film.now) classes (plan_data plan.now)) }
{
    let number = film.number.to_string(alloc)?;
    let scenes = film.scenes.to_string(alloc)?;
    let actors = film.actors.to_string(alloc)?;
    let classes = classes.to_string(alloc)?;
    let cost = plan.cost.to_string(alloc)?;
    let bound = plan.bound.to_string(alloc)?;
    let lines = plan.held.to_string(alloc)?;
    let mut text = Text::new(alloc);
    text.push(&[
        b"trial",
        number.as_bytes(),
        scenes.as_bytes(),
        actors.as_bytes(),
        classes.as_bytes(),
        status_word(plan.status),
        cost.as_bytes(),
        bound.as_bytes(),
        lines.as_bytes(),
        b"accepted",
    ])?;
    text.into_bytes()
}
