// The check of a plan, from its files to the answer.
ghost use Rattle.std.specs.Prelude.{◌≡◌, Err, IfOk, string_bytes};
ghost use Rattle.strip_proof.specs.Plan.{plan_data};
ghost use Rattle.strip_check.specs.declared.verdict.Verdict.TheVariants.{Accepted, Refused};
ghost use Rattle.strip_answer.specs.Ending.{answer_text};
ghost use Rattle.strip_answer.specs.Run.{FilesStay, HasReadFault};
ghost use Rattle.strip_answer.specs.Both.{IsEither};
ghost use Rattle.strip_words.specs.Shown.{plan_files_data};
ghost use Rattle.strip_check_command.specs.Claims.{IsAuditDue};
ghost use Rattle.strip_check_command.specs.Audit.{IsAudited, status_of, verdict_text};

use std::alloc::Global;
use strip_answer::{Answer, PlanJob, Status, Stop, answer_plan, told_row, too_many_classes};
use strip_check::{CheckFault, Reason, Verdict, check};
use strip_io::{Files, Memory};
use strip_model::Instance;
use strip_proof::Plan;
use strip_text::Text;
use strip_words::PlanFiles;

/// Returns the answer to a film's file and a plan's file. The plan is accepted, or the answer has the first reason
/// against it, or the fault of the first unfit file.
pub fn audit<F: Files>(alloc: Global, files: &mut F, names: &PlanFiles) -> Result<Answer, Stop>
    ensures due { IfOk result (λ answer. IsAuditDue (plan_files_data names.now) (F.state files.old) (F.state files.new)
        answer.status (answer_text answer)) }
    ensures read { result ≡ Err Stop.Read → HasReadFault (F.state files.old) (F.state files.new)
        (IsEither (string_bytes names.now.film) (string_bytes names.now.plan) (F.state files.old)) }
    ensures files { FilesStay (F.state files.old) (F.state files.new)
        (IsEither (string_bytes names.now.film) (string_bytes names.now.plan) (F.state files.old)) (result ≡ Err Stop.Read) }
{
    answer_plan::<AuditJob, F>(alloc, files, names)
}

/// The job that checks a plan.
struct AuditJob;

impl PlanJob for AuditJob {
    ghost use Rattle.strip_check_command.specs.Audit.{IsAudited};

    ghost Due = { IsAudited };

    fn answer(alloc: Global, inst: &Instance, plan: Plan) -> Result<Answer, Memory> {
        checked(alloc, inst, &plan)
    }
}

/// Returns the answer to an instance and a plan of it.
fn checked(alloc: Global, inst: &Instance, plan: &Plan) -> Result<Answer, Memory>
    ensures { IfOk result (λ answer. IsAudited inst.now (plan_data plan.now) answer.status (answer_text answer)) }
{
    match check(alloc, inst, plan) {
        Ok(verdict) => told(alloc, verdict),
        Err(CheckFault::TooManyClasses { count }) => too_many_classes(alloc, count),
        Err(CheckFault::Memory) => Err(Memory),
    }
}

/// Returns the answer that prints a verdict.
fn told(alloc: Global, verdict: Verdict) -> Result<Answer, Memory>
    ensures status { IfOk result (λ answer. answer.status ≡ status_of verdict) }
    ensures text { IfOk result (λ answer. answer_text answer ≡ verdict_text verdict) }
{
    match verdict {
        Verdict::Accepted => accepted(alloc),
        Verdict::Refused(reason) => refused(alloc, reason),
    }
}

fn accepted(alloc: Global) -> Result<Answer, Memory>
    ensures status { IfOk result (λ answer. answer.status ≡ status_of Accepted) }
    ensures text { IfOk result (λ answer. answer_text answer ≡ verdict_text Accepted) }
{
    let mut text = Text::new(alloc);
    text.push(&[b"check", b"accepted"])?;
    Ok(Answer {
        status: Status::Done,
        text: text.into_bytes()?,
        lines: Vec::new(alloc),
    })
}

fn refused(alloc: Global, reason: Reason) -> Result<Answer, Memory>
    ensures status { IfOk result (λ answer. answer.status ≡ status_of (Refused reason)) }
    ensures text { IfOk result (λ answer. answer_text answer ≡ verdict_text (Refused reason)) }
{
    Ok(Answer {
        status: Status::NotAccepted,
        text: told_row(alloc, b"refused", reason.told())?,
        lines: Vec::new(alloc),
    })
}
