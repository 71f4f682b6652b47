// The page.
ghost use Rattle.std.specs.Prelude.{◌≡◌, length, IfOk};
ghost use Rattle.strip_model.specs.Order.{IsOrder};
ghost use Rattle.strip_proof.specs.Plan.{plan_data};
ghost use Rattle.strip_reports.specs.Board.{board_text};

use crate::actors::push_actors;
use crate::frame::{push_end, push_head};
use crate::order::push_order;
use crate::summary::{push_summary, push_warnings};
use std::alloc::Global;
use strip_io::Memory;
use strip_model::Instance;
use strip_proof::Plan;

/// Returns the HTML page of the plan's order. It has the order's cost and the plan's claim, and a warning for each
/// broken pair. Tables have a row for each scene and for each actor. It fails only if memory runs out, and takes time
/// and memory in proportion to the size of the page.
pub fn board(alloc: Global, inst: &Instance, plan: &Plan) -> Result<Vec<u8>, Memory>
    requires { IsOrder (length inst.now.scenes) plan.now.order.items }
    ensures { IfOk result (λ page. page.items ≡ board_text inst.now (plan_data plan.now)) }
{
    let mut page = Vec::new(alloc);
    push_head(&mut page)?;
    push_summary(alloc, &mut page, inst, plan)?;
    push_warnings(&mut page, inst, &plan.order)?;
    push_order(alloc, &mut page, inst, &plan.order)?;
    push_actors(alloc, &mut page, inst, &plan.order)?;
    push_end(&mut page)?;
    Ok(page)
}
