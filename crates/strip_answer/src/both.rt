// A film's file, then a plan's file.
ghost use Rattle.std.specs.Prelude.{◌≡◌, ℕ, List, Err, IfOk, string_bytes};
ghost use Rattle.strip_model.specs.Data.{InstanceData};
ghost use Rattle.strip_proof.specs.Plan.{PlanData, plan_data};
ghost use Rattle.strip_proof.specs.Text.{IsReadablePlan};
ghost use Rattle.strip_answer.specs.declared.status.Status.{Status};
ghost use Rattle.strip_answer.specs.Ending.{answer_text};
ghost use Rattle.strip_answer.specs.Run.{FilesStay, HasReadFault};
ghost use Rattle.strip_answer.specs.Both.{AreSaid, BothSay, IsBothDue, IsEither, ways_of_input};
ghost use Rattle.strip_answer.specs.Said.{IsSaidFilm};

use crate::film::film_input;
use crate::input::Input;
use crate::plan::plan_input;
use crate::{Answer, Stop};
use std::alloc::Global;
use strip_io::{Files, Memory};
use strip_model::Instance;
use strip_proof::Plan;
use strip_words::PlanFiles;

/// A job on an instance and a plan of it.
pub trait PlanJob {
    // the claim of the answer, by its status and text
    ghost Due: { InstanceData → PlanData → Status → List ℕ → Type 0 };

    /// Returns the answer for an instance and a plan, both read from texts.
    fn answer(alloc: Global, inst: &Instance, plan: Plan) -> Result<Answer, Memory>
        requires said { IsSaidFilm inst.now }
        requires readable { IsReadablePlan inst.now (plan_data plan) }
        ensures { IfOk result (λ answer. Due inst.now (plan_data plan) answer.status (answer_text answer)) };
}

/// Returns the job's answer for the instance and the plan in two files. If a file isn't fit, the answer refuses the
/// first such file.
pub fn answer_plan<J: PlanJob, F: Files>(
    alloc: Global,
    files: &mut F,
    names: &PlanFiles,
) -> Result<Answer, Stop>
    ensures due { IfOk result (λ answer. IsBothDue J.Due (string_bytes names.now.film) (string_bytes names.now.plan)
        (F.state files.old) (F.state files.new)
        answer.status (answer_text answer)) }
    ensures read { result ≡ Err Stop.Read → HasReadFault (F.state files.old) (F.state files.new)
        (IsEither (string_bytes names.now.film) (string_bytes names.now.plan) (F.state files.old)) }
    ensures files { FilesStay (F.state files.old) (F.state files.new)
        (IsEither (string_bytes names.now.film) (string_bytes names.now.plan) (F.state files.old)) (result ≡ Err Stop.Read) }
{
    match both_inputs(alloc, files, names)? {
        Input::Said((inst, plan)) => Ok(J::answer(alloc, &inst, plan)?),
        Input::Refused(answer) => Ok(answer),
    }
}

/// Reads the instance from the film's file and the plan from the plan's file, or returns the answer that refuses the
/// first unfit one. The plan's file is read only if the film's is fit.
pub fn both_inputs<F: Files>(
    alloc: Global,
    files: &mut F,
    names: &PlanFiles,
) -> Result<Input<(Instance, Plan)>, Stop>
    ensures given { IfOk result (λ input. BothSay (ways_of_input input) (string_bytes names.now.film)
        (string_bytes names.now.plan)
        (F.state files.old) (F.state files.new)) }
    ensures said { IfOk result AreSaid }
    ensures read { result ≡ Err Stop.Read → HasReadFault (F.state files.old) (F.state files.new)
        (IsEither (string_bytes names.now.film) (string_bytes names.now.plan) (F.state files.old)) }
    ensures files { FilesStay (F.state files.old) (F.state files.new)
        (IsEither (string_bytes names.now.film) (string_bytes names.now.plan) (F.state files.old)) (result ≡ Err Stop.Read) }
{
    both_said(alloc, files, names.film.as_str(), names.plan.as_str())
}

fn both_said<F: Files>(
    alloc: Global,
    files: &mut F,
    film: &str,
    plan: &str,
) -> Result<Input<(Instance, Plan)>, Stop>
    ensures given { IfOk result (λ input. BothSay (ways_of_input input) film.now plan.now (F.state files.old)
        (F.state files.new)) }
    ensures said { IfOk result AreSaid }
    ensures read { result ≡ Err Stop.Read → HasReadFault (F.state files.old) (F.state files.new)
        (IsEither film.now plan.now (F.state files.old)) }
    ensures files { FilesStay (F.state files.old) (F.state files.new)
        (IsEither film.now plan.now (F.state files.old)) (result ≡ Err Stop.Read) }
{
    let inst = match film_input(alloc, files, film)? {
        Input::Said(inst) => inst,
        Input::Refused(answer) => return Ok(Input::Refused(answer)),
    };
    match plan_input(alloc, files, &inst, plan)? {
        Input::Said(plan) => Ok(Input::Said((inst, plan))),
        Input::Refused(answer) => Ok(Input::Refused(answer)),
    }
}
