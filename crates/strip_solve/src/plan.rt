// A plan of an instance, from the search of its classes.
ghost use Rattle.std.specs.Prelude.{◌≡◌, ◌+◌, ◌⊎◌, [], IfOk};
ghost use Rattle.strip_model.specs.Film.{FilmData};
ghost use Rattle.strip_model.specs.Order.{IsKeptOrder};
ghost use Rattle.strip_model.specs.Pay.{pay_of};
ghost use Rattle.strip_film.specs.Shown.{path_data};
ghost use Rattle.strip_reduce.specs.Law.{StandsFor};
ghost use Rattle.strip_reduce.specs.Oriented.{oriented};
ghost use Rattle.strip_reduce.specs.Reduction.{reduced as reduction};
ghost use Rattle.strip_reduce.specs.Shown.{reduced_data};
ghost use Rattle.strip_proof.specs.Plan.{plan_data};
ghost use Rattle.strip_solve.specs.Own.{IsOwn, or_own, own_cost};
ghost use Rattle.strip_solve.specs.Searched.{IsFound, IsProofOf, IsRows, IsSearchedFrom, IsStatusOf};
ghost use Rattle.strip_solve.specs.Solved.{IsSolved, IsStart};

use crate::options::SearchOptions;
use crate::own::Own;
use std::alloc::Global;
use strip_film::laws::{a_least_tail_exists, finishing_everything_is_the_optimum};
use strip_film::{Film, Line, Path};
use strip_io::Memory;
use strip_lines::Ended;
use strip_lines::laws::paths_are_few;
use strip_model::laws::pays_stay_small;
use strip_proof::{Plan, Status};
use strip_reduce::{Reduced, expand, orient};

/// A finished search: its initial path and its result. It has the lines that the bound needs, if this is the lesser of
/// the cost and the cost of the rows' order.
#[derive(Debug, Drop)]
pub struct Searched {
    pub begun: Path,
    pub ended: Ended,
    pub trimmed: Option<Vec<Line>>,
}

/// Makes the instance's plan from the search of its classes, or from the rows' order if this is cheaper.
pub fn plan_of(
    alloc: Global,
    reduced: &Reduced,
    start: &Path,
    options: SearchOptions,
    own: Option<Own>,
    searched: Searched,
) -> Result<Plan, Memory>
    requires start { IsStart reduced.now.film (path_data start.now) }
    requires searched { IsSearchedFrom options.kind reduced.now.film (path_data start.now) options.nodes
        (own_cost own reduced.now.apart) searched }
    ensures solved { (film : FilmData) → reduced_data reduced.now ≡ reduction film
        → StandsFor film (reduced_data reduced.now) → IsOwn film own
        → IfOk result (λ plan. IsSolved options.kind film options.nodes (plan_data plan)) }
    ensures status { IfOk result (λ plan. IsStatusOf searched.trimmed plan.status) }
    ensures cost { IfOk result (λ plan. plan.cost ≡ or_own (searched.ended.cost + reduced.now.apart) own) }
    ensures bound { IfOk result (λ plan. plan.bound ≡ searched.ended.bound + reduced.now.apart) }
    ensures held { IfOk result (λ plan. plan.held ≡ searched.ended.held) }
{
    reduced.film.keeps_limits();
    pays_stay_small();
    paths_are_few();
    a_least_tail_exists();
    finishing_everything_is_the_optimum();
    let Searched { ended, trimmed, .. } = searched;
    let Ended {
        order,
        cost,
        bound,
        held,
        lines,
        ..
    } = ended;
    let (status, lines) = proof_of(trimmed, lines);
    let (order, cost) = cheaper(alloc, reduced, order, cost + reduced.apart, own)?;
    Ok(Plan {
        status,
        kind: options.kind,
        cost,
        bound: bound + reduced.apart,
        held,
        order,
        lines,
    })
}

/// Returns the cheaper of two orders and its cost in units of money: an order of the classes, which costs `cost` with
/// the cost set apart, or that of the rows. If they cost the same, it is the first.
fn cheaper(
    alloc: Global,
    reduced: &Reduced,
    order: Vec<u8>,
    cost: u64,
    own: Option<Own>,
) -> Result<(Vec<u16>, u64), Memory>
    requires { IsKeptOrder reduced.now.film order.items }
    ensures { IfOk result (λ least. IsRows own cost least.0.items least.1
        ⊎ IsFound reduced.now.film (reduced_data reduced.now).members order.items own cost least.0.items least.1) }
{
    match own {
        Some(rows) if rows.cost < cost => Ok((rows.order, rows.cost)),
        _ => {
            let order = oriented(&reduced.film, order);
            Ok((expand(alloc, reduced, &order)?, cost))
        }
    }
}

/// Returns the status and the lines that prove the bound: if the lines were trimmed, the bound is the plan's cost.
fn proof_of(trimmed: Option<Vec<Line>>, found: Vec<Line>) -> (Status, Vec<Line>)
    ensures { IsProofOf trimmed found.items result.0 result.1.items }
{
    match trimmed {
        Some(trimmed) => (Status::Optimal, trimmed),
        None => (Status::Bounded, found),
    }
}

/// Returns one fixed choice of the order and its reverse, if there are no pairs, otherwise the order itself.
fn oriented(film: &Film, order: Vec<u8>) -> Vec<u8>
    requires { IsKeptOrder film.now order.items }
    ensures kept { IsKeptOrder film.now result.items }
    ensures pay { pay_of film.now result.items ≡ pay_of film.now order.items }
    ensures turned { film.now.pairs ≡ [] → result.items ≡ oriented result.items }
{
    let mut order = order;
    if film.pairs().is_empty() {
        orient(&mut order);
    }
    order
}
