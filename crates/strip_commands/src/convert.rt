// The command `convert`.
ghost use Rattle.std.specs.Prelude.{IfOk};
ghost use Rattle.strip_proof.specs.Plan.{plan_data};
ghost use Rattle.strip_proof.specs.Text.{IsReadablePlan};
ghost use Rattle.strip_answer.specs.Ending.{answer_text};
ghost use Rattle.strip_answer.specs.Said.{IsSaidFilm};
ghost use Rattle.strip_commands.specs.Convert.{IsConverted};

use std::alloc::Global;
use strip_answer::{Answer, PlanJob, Status};
use strip_io::Memory;
use strip_model::Instance;
use strip_proof::laws::written_plans_read_back;
use strip_proof::{Plan, head_text};

/// The job that prints the plan in the newest format. It doesn't check the plan.
pub(crate) struct ConvertJob;

impl PlanJob for ConvertJob {
    ghost use Rattle.strip_commands.specs.Convert.{IsConverted};

    ghost Due = { IsConverted };

    fn answer(alloc: Global, inst: &Instance, plan: Plan) -> Result<Answer, Memory> {
        written(alloc, inst, plan)
    }
}

/// Returns the answer that prints the plan with all its lines.
fn written(alloc: Global, inst: &Instance, plan: Plan) -> Result<Answer, Memory>
    requires said { IsSaidFilm inst.now }
    requires readable { IsReadablePlan inst.now (plan_data plan) }
    ensures { IfOk result (λ answer. IsConverted inst.now (plan_data plan) answer.status (answer_text answer)) }
{
    written_plans_read_back();
    let text = head_text(alloc, inst, &plan, plan.lines.len() as u64)?;
    Ok(Answer {
        status: Status::Done,
        text,
        lines: plan.lines,
    })
}
