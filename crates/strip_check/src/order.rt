// Checks of a plan's order, pairs and cost.
ghost use Rattle.std.specs.Prelude.{◌≡◌, length};
ghost use Rattle.strip_model.specs.Order.{IsOrder};
ghost use Rattle.strip_model.specs.FilmOf.{film_of};
ghost use Rattle.strip_proof.specs.Plan.{plan_data};
ghost use Rattle.strip_text.specs.Checks.{below, first_fault};
ghost use Rattle.strip_check.specs.Reasons.{cost_check, is_order, order_checks, pair_check, stands_before};

use crate::verdict::Reason;
use strip_model::{Instance, Pair, is_order, keeps, pay};
use strip_proof::Plan;

/// Returns the first reason against the plan's order and its cost.
pub(crate) fn against_order(inst: &Instance, plan: &Plan) -> Option<Reason>
    ensures { result ≡ first_fault (order_checks (film_of inst.now) (plan_data plan.now)) }
{
    if !is_an_order(inst, &plan.order) {
        return Some(Reason::NotAnOrder);
    }
    if let Some(reason) = against_pairs(inst.pairs(), &plan.order) {
        return Some(reason);
    }
    against_cost(inst, plan)
}

fn is_an_order(inst: &Instance, order: &[u16]) -> bool
    ensures { result ≡ is_order (length (film_of inst.now).casts) order.now }
{
    is_order(inst, order)
}

/// Returns the first of the pairs that the order breaks.
fn against_pairs(pairs: &[Pair], order: &[u16]) -> Option<Reason>
    ensures { result ≡ first_fault (below (length pairs.now) (pair_check pairs.now order.now)) }
{
    for (place, pair) in pairs.iter().enumerate() {
        if !keeps_pair(*pair, order) {
            return Some(Reason::BrokenPair {
                pair: place as u64 + 1,
            });
        }
    }
    None
}

fn keeps_pair(pair: Pair, order: &[u16]) -> bool
    ensures { result ≡ stands_before pair.first pair.then order.now }
{
    keeps(&[pair], order)
}

/// Returns the reason against a cost that isn't the pay of the plan's order.
fn against_cost(inst: &Instance, plan: &Plan) -> Option<Reason>
    requires { IsOrder (length inst.now.scenes) plan.now.order.items }
    ensures { result ≡ first_fault (cost_check (film_of inst.now) (plan_data plan.now)) }
{
    let found = pay(inst, &plan.order);
    if plan.cost == found {
        None
    } else {
        Some(Reason::WrongCost { found })
    }
}
