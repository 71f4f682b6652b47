// The command `arrange`.
ghost use Rattle.std.specs.Prelude.{IfOk};
ghost use Rattle.strip_instance.specs.Text.{HasReadableNames};
ghost use Rattle.strip_answer.specs.Ending.{answer_text};
ghost use Rattle.strip_commands.specs.Arrange.{IsArranged};

use crate::reports::{printed, refused};
use std::alloc::Global;
use strip_answer::{Answer, PlanJob};
use strip_check::Reason;
use strip_instance::laws::an_arranged_instance_pays_the_same;
use strip_instance::write_arranged;
use strip_io::Memory;
use strip_model::{Instance, is_order};
use strip_proof::Plan;

/// The job that prints the film's text with its scenes in the plan's order, or refuses a list that is no order.
pub(crate) struct ArrangeJob;

impl PlanJob for ArrangeJob {
    ghost use Rattle.strip_commands.specs.Arrange.{IsArranged};

    ghost Due = { λ inst plan. IsArranged inst plan.order };

    fn answer(alloc: Global, inst: &Instance, plan: Plan) -> Result<Answer, Memory> {
        text_in_order(alloc, inst, &plan.order)
    }
}

/// Returns the answer to an instance and a list of scenes.
fn text_in_order(alloc: Global, inst: &Instance, order: &[u16]) -> Result<Answer, Memory>
    requires { HasReadableNames inst.now }
    ensures { IfOk result (λ answer. IsArranged inst.now order.now answer.status (answer_text answer)) }
{
    an_arranged_instance_pays_the_same();
    if !is_order(inst, order) {
        return refused(alloc, Reason::NotAnOrder);
    }
    let text = write_arranged(alloc, inst, order)?;
    Ok(printed(alloc, text))
}
