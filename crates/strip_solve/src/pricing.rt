// The plan of the rows' order, without a search.
ghost use Rattle.std.specs.Prelude.{◌≡◌, ◌+◌, ◌<◌, ◌≤◌, ℕ, Err, IfOk, OnOk};
ghost use Rattle.strip_model.specs.declared.kind.Kind.TheVariants.{Pairs};
ghost use Rattle.strip_film.specs.Film.{all_scenes};
ghost use Rattle.strip_bound.specs.Bounds.{bound};
ghost use Rattle.strip_model.specs.FilmOf.{film_of};
ghost use Rattle.strip_reduce.specs.declared.fault.ReduceFault.TheVariants.{TooManyClasses};
ghost use Rattle.strip_reduce.specs.Reduction.{class_count, reduced as reduction};
ghost use Rattle.strip_reduce.specs.Shown.{reduced_data};
ghost use Rattle.strip_proof.specs.Plan.{plan_data};
ghost use Rattle.strip_solve.specs.Priced.{priced_plan, priced_status};

use crate::own::numbers;
use std::alloc::Global;
use strip_bound::{BoundTables, pairs};
use strip_io::Memory;
use strip_lines::laws::the_rules_are_true;
use strip_model::{Instance, Kind, pay};
use strip_proof::{Plan, Status};
use strip_reduce::{ReduceFault, Reduced, reduce};

/// Makes a plan of the order of the instance's rows, even if it breaks pairs. It has this order's cost and no lines.
/// Its bound is the static bound with pairs of all classes, plus the cost set apart. It fails with `TooManyClasses` if
/// more than 64 classes are left.
pub fn price(alloc: Global, inst: &Instance) -> Result<Plan, ReduceFault>
    ensures priced { IfOk result (λ plan. plan_data plan ≡ priced_plan (film_of inst.now)) }
    ensures few { OnOk result (class_count (film_of inst.now) ≤ 64) }
    ensures too_many { (count : ℕ) → result ≡ Err (TooManyClasses count)
        → (64 < count) × (count ≡ class_count (film_of inst.now)) }
{
    inst.keeps_limits();
    let reduced = reduce(alloc, inst)?;
    match price_classes(alloc, inst, &reduced) {
        Ok(plan) => Ok(plan),
        Err(Memory) => Err(ReduceFault::Memory),
    }
}

/// Makes the plan from the instance's classes.
fn price_classes(alloc: Global, inst: &Instance, reduced: &Reduced) -> Result<Plan, Memory>
    requires { reduced_data reduced.now ≡ reduction (film_of inst.now) }
    ensures { IfOk result (λ plan. plan_data plan ≡ priced_plan (film_of inst.now)) }
{
    inst.keeps_limits();
    let bound = whole_bound(alloc, reduced)?;
    let order = numbers(alloc, inst.scenes().len() as u16)?;
    let cost = pay(inst, &order);
    Ok(Plan {
        status: status_by(bound, cost),
        kind: Kind::Pairs,
        cost,
        bound,
        held: 0,
        order,
        lines: Vec::new(alloc),
    })
}

/// Returns the static bound with pairs of all classes plus the cost set apart, in units of money.
fn whole_bound(alloc: Global, reduced: &Reduced) -> Result<u64, Memory>
    ensures { IfOk result (λ least. least ≡ bound Pairs reduced.now.film (all_scenes reduced.now.film) + reduced.now.apart) }
{
    the_rules_are_true();
    let film = &reduced.film;
    film.keeps_limits();
    let tables = BoundTables::of(alloc, film)?;
    Ok(pairs(film, &tables, film.all()) + reduced.apart)
}

/// Returns `Optimal` if the bound is the cost, otherwise `Bounded`.
fn status_by(bound: u64, cost: u64) -> Status
    ensures { result ≡ priced_status bound cost }
{
    if bound == cost {
        Status::Optimal
    } else {
        Status::Bounded
    }
}
