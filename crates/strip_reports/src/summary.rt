// The sentence on the order and its plan, and the warnings of broken pairs.
ghost use Rattle.std.specs.Prelude.{◌≡◌, ◌++◌, ◌<◌, length, OnOk};
ghost use Rattle.strip_model.specs.Pairs.{IsKnownPair};
ghost use Rattle.strip_model.specs.Order.{IsOrder};
ghost use Rattle.strip_model.specs.Pay.{pay_of};
ghost use Rattle.strip_model.specs.Data.{scene_name};
ghost use Rattle.strip_model.specs.FilmOf.{film_of};
ghost use Rattle.strip_proof.specs.Plan.{plan_data};
ghost use Rattle.strip_reports.specs.Board.{breaks, summary, warning, warnings};

use crate::figures::{days_of, figures_at};
use crate::html::{push_all, push_name};
use crate::laws::the_total_of_the_sheet_is_the_pay;
use std::alloc::Global;
use strip_io::Memory;
use strip_model::{Instance, Pair, stands_in};
use strip_proof::{Plan, status_word};

/// Appends the sentence on the order's cost and the plan's claim.
pub(crate) fn push_summary(
    alloc: Global,
    page: &mut Vec<u8>,
    inst: &Instance,
    plan: &Plan,
) -> Result<(), Memory>
    requires { IsOrder (length inst.now.scenes) plan.now.order.items }
    ensures { OnOk result (page.new.items ≡ page.old.items ++ summary inst.now (plan_data plan.now)) }
{
    let cost = pay_of(inst, &plan.order).to_string(alloc)?;
    let scenes = inst.scenes().len().to_string(alloc)?;
    let days = days_of(inst, &plan.order).to_string(alloc)?;
    let actors = inst.actors().len().to_string(alloc)?;
    let bound = plan.bound.to_string(alloc)?;
    push_all(
        page,
        &[
            b"<p>This order costs ",
            cost.as_bytes(),
            b" (scenes: ",
            scenes.as_bytes(),
            b", days: ",
            days.as_bytes(),
            b", actors: ",
            actors.as_bytes(),
            b"); its plan claims the bound ",
            bound.as_bytes(),
            b" and the status ",
            status_word(plan.status),
            b", which stripcheck checks and this page does not.</p>\n",
        ],
    )
}

/// Returns the pay of the order, in units of money. It takes a turn for each pair of scenes, and for each scene and
/// actor.
pub(crate) fn pay_of(inst: &Instance, order: &[u16]) -> u64
    requires { IsOrder (length inst.now.scenes) order.now }
    ensures { result ≡ pay_of (film_of inst.now) order.now }
{
    inst.keeps_limits();
    the_total_of_the_sheet_is_the_pay();
    let mut pay = 0;
    for place in 0..order.len() {
        pay += figures_at(inst, order, place).pay;
    }
    pay
}

/// Appends a warning for each pair that the order breaks.
pub(crate) fn push_warnings(
    page: &mut Vec<u8>,
    inst: &Instance,
    order: &[u16],
) -> Result<(), Memory>
    ensures { OnOk result (page.new.items ≡ page.old.items ++ warnings inst.now order.now) }
{
    for pair in inst.pairs() {
        if breaks(order, pair) {
            push_warning(page, inst, pair)?;
        }
    }
    Ok(())
}

/// Tells whether the pair's first scene comes after its second.
fn breaks(order: &[u16], pair: &Pair) -> bool
    ensures { result ≡ breaks order.now pair.now }
{
    for (place, &scene) in order.iter().enumerate() {
        if scene == pair.then {
            return stands_in(&order[place..], pair.first);
        }
    }
    false
}

fn push_warning(page: &mut Vec<u8>, inst: &Instance, pair: &Pair) -> Result<(), Memory>
    requires { IsKnownPair (length inst.now.scenes) pair.now }
    ensures { OnOk result (page.new.items ≡ page.old.items ++ warning inst.now pair.now) }
{
    page.extend_from_slice(b"<p class=\"warning\">Warning: ")?;
    push_name(page, name_of(inst, pair.first))?;
    page.extend_from_slice(b" has to be shot before ")?;
    push_name(page, name_of(inst, pair.then))?;
    page.extend_from_slice(b", but this order has it behind.</p>\n")?;
    Ok(())
}

pub(crate) fn name_of(inst: &Instance, scene: u16) -> &[u8]
    requires { scene < length inst.now.scenes }
    ensures { result.now ≡ scene_name inst.now scene }
{
    inst.scenes()[scene as usize].name.as_bytes()
}
