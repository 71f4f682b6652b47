// The command `board`.
ghost use Rattle.std.specs.Prelude.{IfOk};
ghost use Rattle.strip_proof.specs.Plan.{plan_data};
ghost use Rattle.strip_answer.specs.Ending.{answer_text};
ghost use Rattle.strip_commands.specs.Board.{IsPageOrNone};

use crate::reports::{printed, refused};
use std::alloc::Global;
use strip_answer::{Answer, PlanJob};
use strip_check::Reason;
use strip_io::Memory;
use strip_model::{Instance, is_order};
use strip_proof::Plan;

/// The job that prints the HTML page of the plan's order, or refuses a list that is no order.
pub(crate) struct BoardJob;

impl PlanJob for BoardJob {
    ghost use Rattle.strip_commands.specs.Board.{IsPageOrNone};

    ghost Due = { IsPageOrNone };

    fn answer(alloc: Global, inst: &Instance, plan: Plan) -> Result<Answer, Memory> {
        page_of(alloc, inst, &plan)
    }
}

/// Returns the answer to an instance and a plan.
fn page_of(alloc: Global, inst: &Instance, plan: &Plan) -> Result<Answer, Memory>
    ensures { IfOk result (λ answer. IsPageOrNone inst.now (plan_data plan.now) answer.status (answer_text answer)) }
{
    if !is_order(inst, &plan.order) {
        return refused(alloc, Reason::NotAnOrder);
    }
    let page = strip_reports::board(alloc, inst, plan)?;
    Ok(printed(alloc, page))
}
