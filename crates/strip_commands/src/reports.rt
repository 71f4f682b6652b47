// The commands `dood` and `sheet`.
ghost use Rattle.std.specs.Prelude.{◌≡◌, IfOk, codes};
ghost use Rattle.strip_answer.specs.declared.status.Status.TheVariants.{Done, NotAccepted};
ghost use Rattle.strip_answer.specs.Ending.{answer_text};
ghost use Rattle.strip_answer.specs.Rows.{told_row};
ghost use Rattle.strip_check.specs.Told.{told_of};
ghost use Rattle.strip_reports.specs.Text.{dood_text};
ghost use Rattle.strip_reports.specs.Sheet.{sheet_text};
ghost use Rattle.strip_commands.specs.Report.{IsReported};

use std::alloc::Global;
use strip_answer::{Answer, PlanJob, Status, told_row};
use strip_check::Reason;
use strip_io::Memory;
use strip_model::{Instance, is_order};
use strip_proof::Plan;

/// The job that prints the Day Out of Days report of the plan's order, or refuses a list that is no order.
pub(crate) struct DoodJob;

impl PlanJob for DoodJob {
    ghost use Rattle.strip_reports.specs.Text.{dood_text};
    ghost use Rattle.strip_commands.specs.Report.{IsReported};

    ghost Due = { λ inst plan. IsReported dood_text inst plan.order };

    fn answer(alloc: Global, inst: &Instance, plan: Plan) -> Result<Answer, Memory> {
        dood_of(alloc, inst, &plan.order)
    }
}

/// The job that prints the cost sheet of the plan's order, or refuses a list that is no order.
pub(crate) struct SheetJob;

impl PlanJob for SheetJob {
    ghost use Rattle.strip_reports.specs.Sheet.{sheet_text};
    ghost use Rattle.strip_commands.specs.Report.{IsReported};

    ghost Due = { λ inst plan. IsReported sheet_text inst plan.order };

    fn answer(alloc: Global, inst: &Instance, plan: Plan) -> Result<Answer, Memory> {
        sheet_of(alloc, inst, &plan.order)
    }
}

/// Returns the answer to an instance and a list of scenes.
fn dood_of(alloc: Global, inst: &Instance, order: &[u16]) -> Result<Answer, Memory>
    ensures { IfOk result (λ answer. IsReported dood_text inst.now order.now answer.status (answer_text answer)) }
{
    inst.keeps_limits();
    strip_reports::laws::the_total_of_days_is_the_pay();
    if !is_order(inst, order) {
        return refused(alloc, Reason::NotAnOrder);
    }
    let text = strip_reports::dood::dood(alloc, inst, order)?;
    Ok(printed(alloc, text))
}

/// Returns the answer to an instance and a list of scenes.
fn sheet_of(alloc: Global, inst: &Instance, order: &[u16]) -> Result<Answer, Memory>
    ensures { IfOk result (λ answer. IsReported sheet_text inst.now order.now answer.status (answer_text answer)) }
{
    strip_reports::laws::the_total_of_the_sheet_is_the_pay();
    if !is_order(inst, order) {
        return refused(alloc, Reason::NotAnOrder);
    }
    let text = strip_reports::sheet::sheet(alloc, inst, order)?;
    Ok(printed(alloc, text))
}

/// Returns the answer that prints this text.
pub(crate) fn printed(alloc: Global, text: Vec<u8>) -> Answer
    ensures status { result.status ≡ Done }
    ensures text { answer_text result ≡ text.items }
{
    Answer {
        status: Status::Done,
        text,
        lines: Vec::new(alloc),
    }
}

/// Returns the answer that prints the checker's reason against a plan.
pub(crate) fn refused(alloc: Global, reason: Reason) -> Result<Answer, Memory>
    ensures status { IfOk result (λ answer. answer.status ≡ NotAccepted) }
    ensures text { IfOk result (λ answer. answer_text answer ≡ told_row (codes "refused") (told_of reason)) }
{
    Ok(Answer {
        status: Status::NotAccepted,
        text: told_row(alloc, b"refused", reason.told())?,
        lines: Vec::new(alloc),
    })
}
