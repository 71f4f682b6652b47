// The command `price`.
ghost use Rattle.std.specs.Prelude.{◌≡◌, ◌<◌, ◌≤◌, length, string_bytes, All, Err, IfOk};
ghost use Rattle.strip_io.specs.Counts.{ReadFailed};
ghost use Rattle.strip_model.specs.FilmOf.{film_of};
ghost use Rattle.strip_reduce.specs.Reduction.{class_count};
ghost use Rattle.strip_proof.specs.Plan.{plan_data};
ghost use Rattle.strip_proof.specs.Rows.{bare_text};
ghost use Rattle.strip_solve.specs.Priced.{priced_plan};
ghost use Rattle.strip_answer.specs.declared.status.Status.TheVariants.{Done};
ghost use Rattle.strip_answer.specs.Ending.{answer_text};
ghost use Rattle.strip_answer.specs.Run.{FilesStay};
ghost use Rattle.strip_answer.specs.Said.{IsSaidFilm};
ghost use Rattle.strip_commands.specs.Film.{IsFilmDue};
ghost use Rattle.strip_commands.specs.Price.{IsPriced};

use crate::reports::{printed, refused};
use std::alloc::Global;
use strip_answer::{Answer, Input, Stop, film_input, too_many_classes};
use strip_check::{CheckFault, Verdict, check};
use strip_io::{Files, Memory};
use strip_model::Instance;
use strip_proof::laws::written_plans_read_back;
use strip_proof::{Plan, head_text};
use strip_reduce::ReduceFault;
use strip_solve::price;
use strip_words::FilmFile;

/// Returns the answer to a film's file: the plan of its rows' order, or why there is none.
pub(crate) fn price_film<F: Files>(
    alloc: Global,
    files: &mut F,
    names: &FilmFile,
) -> Result<Answer, Stop>
    ensures due { IfOk result (λ answer. IsFilmDue IsPriced (string_bytes names.now.film)
        (F.state files.old) (F.state files.new) answer.status (answer_text answer)) }
    ensures read { result ≡ Err Stop.Read
        → ReadFailed (string_bytes names.now.film) (F.state files.old).holds (F.state files.old).faults
        (F.state files.new).faults }
    ensures files { FilesStay (F.state files.old) (F.state files.new)
        (λ name. string_bytes names.now.film ≡ name) (result ≡ Err Stop.Read) }
{
    match film_input(alloc, files, names.film.as_str())? {
        Input::Said(inst) => Ok(price_instance(alloc, &inst)?),
        Input::Refused(answer) => Ok(answer),
    }
}

/// Returns the answer to an instance that was read from a text.
fn price_instance(alloc: Global, inst: &Instance) -> Result<Answer, Memory>
    requires { IsSaidFilm inst.now }
    ensures { IfOk result (λ answer. IsPriced inst.now answer.status (answer_text answer)) }
{
    match price(alloc, inst) {
        Ok(plan) => price_plan(alloc, inst, &plan),
        Err(ReduceFault::TooManyClasses { count }) => too_many_classes(alloc, count),
        Err(ReduceFault::Memory) => Err(Memory),
    }
}

/// Returns the answer to an instance and the plan of its rows: the plan, or the checker's reason against it if the rows
/// break a pair.
fn price_plan(alloc: Global, inst: &Instance, plan: &Plan) -> Result<Answer, Memory>
    requires said { IsSaidFilm inst.now }
    requires few { class_count (film_of inst.now) ≤ 64 }
    requires priced { plan_data plan.now ≡ priced_plan (film_of inst.now) }
    ensures { IfOk result (λ answer. IsPriced inst.now answer.status (answer_text answer)) }
{
    written_plans_read_back();
    match check(alloc, inst, plan) {
        Ok(Verdict::Accepted) => print_plan(alloc, inst, plan),
        Ok(Verdict::Refused(reason)) => refused(alloc, reason),
        Err(CheckFault::TooManyClasses { .. }) => unreachable!("there are at most 64 classes"),
        Err(CheckFault::Memory) => Err(Memory),
    }
}

/// Returns the answer that prints a plan without its lines.
fn print_plan(alloc: Global, inst: &Instance, plan: &Plan) -> Result<Answer, Memory>
    requires { All (λ scene. scene < length inst.now.scenes) plan.now.order.items }
    ensures status { IfOk result (λ answer. answer.status ≡ Done) }
    ensures text { IfOk result (λ answer. answer_text answer ≡ bare_text inst.now (plan_data plan.now)) }
{
    let text = head_text(alloc, inst, plan, 0)?;
    Ok(printed(alloc, text))
}
