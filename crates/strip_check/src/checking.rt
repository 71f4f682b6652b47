// The check of a plan.
ghost use Rattle.std.specs.Prelude.{◌≡◌, ◌↔◌, ℕ, ◌<◌, ◌≤◌, ◌++◌, Err, IfOk, OnOk};
ghost use Rattle.strip_model.specs.FilmOf.{film_of};
ghost use Rattle.strip_reduce.specs.Reduction.{class_count};
ghost use Rattle.strip_reduce.specs.Shown.{reduced_data};
ghost use Rattle.strip_proof.specs.Plan.{plan_data};
ghost use Rattle.strip_text.specs.Checks.{first_fault};
ghost use Rattle.strip_check.specs.declared.fault.CheckFault.TheVariants.{TooManyClasses};
ghost use Rattle.strip_check.specs.declared.verdict.Verdict.TheVariants.{Accepted};
ghost use Rattle.strip_check.specs.Accepted.{IsAccepted, IsTruePlan};
ghost use Rattle.strip_check.specs.Reasons.{order_checks, proof_checks, verdict_by, verdict_of};

use crate::fault::CheckFault;
use crate::laws::{accepted_plans_pass_each_check, no_order_undercuts_an_accepted_plan};
use crate::order::against_order;
use crate::proof::against_proof;
use crate::verdict::{Reason, Verdict};
use std::alloc::Global;
use strip_io::Memory;
use strip_model::Instance;
use strip_proof::Plan;
use strip_reduce::laws::reductions_begin_within_the_limits;
use strip_reduce::{Reduced, reduce};

/// Accepts the plan if its lines justify its bound, or refuses it with the first reason against it. It fails with
/// `TooManyClasses` if the instance has more than 64 classes after the reduction. No order of the instance that keeps
/// the pairs pays less than the bound of an accepted plan. The stated number of lines of the plan's search isn't
/// checked.
///
/// It takes some 32 bytes of memory for each line, and time n log n in the number of lines. A line whose static bound
/// doesn't reach its bound takes a step and a static bound for each open first.
pub fn check(alloc: Global, inst: &Instance, plan: &Plan) -> Result<Verdict, CheckFault>
    ensures verdict { IfOk result (λ verdict. verdict ≡ verdict_of (film_of inst.now) (plan_data plan.now)) }
    ensures accepted { IfOk result (λ verdict.
        (verdict ≡ Accepted) ↔ IsAccepted (film_of inst.now) (plan_data plan.now)) }
    ensures true_plan { IfOk result (λ verdict.
        verdict ≡ Accepted → IsTruePlan (film_of inst.now) (plan_data plan.now)) }
    ensures few { OnOk result (class_count (film_of inst.now) ≤ 64) }
    ensures too_many { (count : ℕ) → result ≡ Err (TooManyClasses count)
        → (64 < count) × (count ≡ class_count (film_of inst.now)) }
{
    inst.keeps_limits();
    reductions_begin_within_the_limits();
    accepted_plans_pass_each_check();
    no_order_undercuts_an_accepted_plan();
    let reduced = reduce(alloc, inst)?;
    Ok(verdict_by(against(alloc, inst, &reduced, plan)?))
}

/// Returns the first reason against the plan, if `reduced` has the instance's classes.
fn against(
    alloc: Global,
    inst: &Instance,
    reduced: &Reduced,
    plan: &Plan,
) -> Result<Option<Reason>, Memory>
    ensures { IfOk result (λ reason. reason ≡ first_fault (order_checks (film_of inst.now) (plan_data plan.now)
        ++ proof_checks (reduced_data reduced.now) (plan_data plan.now))) }
{
    if let Some(reason) = against_order(inst, plan) {
        return Ok(Some(reason));
    }
    against_proof(alloc, reduced, plan)
}

fn verdict_by(reason: Option<Reason>) -> Verdict
    ensures { result ≡ verdict_by reason }
{
    match reason {
        None => Verdict::Accepted,
        Some(reason) => Verdict::Refused(reason),
    }
}
