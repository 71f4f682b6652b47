// A plan's file.
ghost use Rattle.std.specs.Prelude.{◌≡◌, ◌≢◌, ◌≤◌, length, Err, IfOk, OnOk};
ghost use Rattle.strip_io.specs.Counts.{ReadFailed};
ghost use Rattle.strip_proof.specs.declared.fault.PlanFault.TheVariants.{Memory as OutOfMemory};
ghost use Rattle.strip_proof.specs.Told.{told_of};
ghost use Rattle.strip_answer.specs.declared.status.Status.TheVariants.{BadPlan};
ghost use Rattle.strip_answer.specs.Ending.{answer_text};
ghost use Rattle.strip_answer.specs.Run.{FilesStay};
ghost use Rattle.strip_answer.specs.Said.{IsPlanGiven, IsRefusal, plan_said};
ghost use Rattle.strip_answer.specs.Input.{HasInput};

use crate::input::{Input, too_long};
use crate::{Answer, Status, Stop};
use std::alloc::Global;
use strip_io::{Files, LoadFault, Memory, load};
use strip_model::Instance;
use strip_proof::{Plan, PlanFault, read_plan};

/// The greatest size of a plan's file, in bytes.
pub const MAX_PLAN: u64 = 1_073_741_824;

/// Reads a plan of the instance from its file, or returns the answer that refuses the file.
pub fn plan_input<F: Files>(
    alloc: Global,
    files: &mut F,
    inst: &Instance,
    name: &str,
) -> Result<Input<Plan>, Stop>
    ensures given { IfOk result (λ input. HasInput name.now 1_073_741_824 (F.state files.old) (F.state files.new)
        (λ text. IsPlanGiven inst.now (plan_said inst.now text) input)) }
    ensures read { result ≡ Err Stop.Read
        → ReadFailed name.now (F.state files.old).holds (F.state files.old).faults (F.state files.new).faults }
    ensures files { FilesStay (F.state files.old) (F.state files.new)
        (λ file. name.now ≡ file) (result ≡ Err Stop.Read) }
{
    match load(alloc, files, name, MAX_PLAN) {
        Ok(text) => Ok(said(alloc, inst, &text)?),
        Err(LoadFault::TooLong) => Ok(Input::Refused(too_long(alloc, Status::BadPlan)?)),
        Err(LoadFault::Read) => Err(Stop::Read),
        Err(LoadFault::Memory) => Err(Stop::Memory),
    }
}

/// Reads the plan from a text that isn't too long.
fn said(alloc: Global, inst: &Instance, text: &[u8]) -> Result<Input<Plan>, Memory>
    requires { length text.now ≤ 1_073_741_824 }
    ensures { IfOk result (IsPlanGiven inst.now (plan_said inst.now text.now)) }
{
    match read_plan(alloc, inst, text) {
        Ok(plan) => Ok(Input::Said(plan)),
        Err(fault) => Ok(Input::Refused(refused(alloc, fault)?)),
    }
}

/// Returns the answer that refuses a text with this fault. If memory ran out, it fails, since the text has no fault.
fn refused(alloc: Global, fault: PlanFault) -> Result<Answer, Memory>
    ensures of_text { OnOk result (fault ≢ OutOfMemory) }
    ensures refusal { IfOk result (λ answer. IsRefusal BadPlan (told_of fault) answer.status (answer_text answer)) }
{
    match fault.told() {
        Some(told) => Answer::error(alloc, Status::BadPlan, told),
        None => Err(Memory),
    }
}
