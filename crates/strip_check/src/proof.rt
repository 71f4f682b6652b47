// Checks of a plan's lines, bound and status.
ghost use Rattle.std.specs.Prelude.{◌≡◌, None, nat_le, All, IfOk, length};
ghost use Rattle.strip_film.specs.Film.{LiesIn};
ghost use Rattle.strip_bound.specs.Tables.{AreTables};
ghost use Rattle.strip_lines.specs.Lines.{rules_of};
ghost use Rattle.strip_reduce.specs.Shown.{reduced_data};
ghost use Rattle.strip_proof.specs.Plan.{plan_data};
ghost use Rattle.strip_text.specs.Checks.{below, checks_of_one, first_fault};
ghost use Rattle.strip_check.specs.declared.verdict.Reason.TheVariants.{RootBound};
ghost use Rattle.strip_check.specs.Reasons.{bound_checks, end_checks, is_right, line_check, proof_checks, set_check};

use crate::justify::{is_justified, justified, known};
use crate::verdict::Reason;
use std::alloc::Global;
use std::marker::Brand;
use strip_bound::{BoundTables, Bounded, Bounds, FilmBounds};
use strip_film::{Film, Line};
use strip_io::Memory;
use strip_mask::Mask;
use strip_memo::Memo;
use strip_proof::{Plan, Status};
use strip_reduce::Reduced;
use strip_trim::Best;

/// Returns the first reason against the plan's lines, its bound and its status.
pub(crate) fn against_proof(
    alloc: Global,
    reduced: &Reduced,
    plan: &Plan,
) -> Result<Option<Reason>, Memory>
    ensures { IfOk result (λ reason. reason
        ≡ first_fault (proof_checks (reduced_data reduced.now) (plan_data plan.now))) }
{
    let film = &reduced.film;
    if let Some(reason) = against_sets(film, &plan.lines) {
        return Ok(Some(reason));
    }
    let tables = BoundTables::of(alloc, film)?;
    against_bounds::<Brand>(alloc, film, &tables, reduced.apart, plan)
}

/// Returns the first of the lines with a set that doesn't lie in the film.
fn against_sets(film: &Film, lines: &[Line]) -> Option<Reason>
    ensures first { result ≡ first_fault (below (length lines.now) (set_check film.now lines.now)) }
    ensures lie { result ≡ None → All (λ line. LiesIn film.now line.set) lines.now }
{
    for (place, line) in lines.iter().enumerate() {
        if !Mask(line.set).minus(film.all()).is_empty() {
            return Some(Reason::BadSet {
                line: place as u64 + 1,
            });
        }
    }
    None
}

/// Returns the first reason against the bounds of the lines, the plan's bound and its status. A type brand names the
/// film and the kind of the bounds.
fn against_bounds<N: Bounded>(
    alloc: Global,
    film: &Film,
    tables: &BoundTables,
    apart: u64,
    plan: &Plan,
) -> Result<Option<Reason>, Memory>
    requires film { film.now ≡ N.film }
    requires kind { plan.now.kind ≡ N.kind }
    requires tables { AreTables film.now tables.now }
    requires lie { All (λ line. LiesIn film.now line.set) plan.now.lines.items }
    ensures { IfOk result (λ reason. reason
        ≡ first_fault (bound_checks (rules_of plan.now.kind film.now) apart (plan_data plan.now))) }
{
    let bounds: FilmBounds<N> = FilmBounds::new(film, tables, plan.kind);
    let mut memo = Memo::new(alloc, &bounds)?;
    let best = Best::of(alloc, &plan.lines)?;
    if let Some(reason) = against_lines(&bounds, &mut memo, &best, &plan.lines) {
        return Ok(Some(reason));
    }
    Ok(against_end(&bounds, &best, apart, plan))
}

/// Returns the first of the lines with a bound greater than the lines justify for its set.
fn against_lines<B: Bounds>(
    bounds: &B,
    memo: &mut Memo<B>,
    best: &Best,
    lines: &[Line],
) -> Option<Reason>
    requires lie { All (λ line. LiesIn B.film line.set) lines.now }
    requires best { best.now.lines ≡ lines.now }
    ensures first { result ≡ first_fault (below (length lines.now)
        (line_check (rules_of B.kind B.film) lines.now)) }
{
    for (place, line) in lines.iter().enumerate() {
        let q = Mask(line.set);
        if !is_justified(bounds, memo, best, q, line.bound) {
            return Some(Reason::Unjustified {
                line: place as u64 + 1,
                justified: justified(bounds, best, q) as u64,
            });
        }
    }
    None
}

/// Returns the first reason against the plan's bound and its status.
fn against_end<B: Bounds>(bounds: &B, best: &Best, apart: u64, plan: &Plan) -> Option<Reason>
    requires best { best.now.lines ≡ plan.now.lines.items }
    ensures { result
        ≡ first_fault (end_checks (rules_of B.kind B.film) apart (plan_data plan.now)) }
{
    let known = u128::from(apart) + u128::from(known(bounds, best, bounds.film().all()));
    if let Some(reason) = against_bound(known, plan.bound) {
        return Some(reason);
    }
    if !has_right_status(plan) {
        return Some(Reason::StatusWrong);
    }
    None
}

/// Returns the reason against a bound greater than the known bound.
fn against_bound(known: u128, bound: u64) -> Option<Reason>
    ensures { result ≡ first_fault (checks_of_one (nat_le bound known) (RootBound known)) }
{
    if known < u128::from(bound) {
        return Some(Reason::RootBound {
            known: known as u64,
        });
    }
    None
}

/// Tells whether the plan's status fits its bound and its cost.
fn has_right_status(plan: &Plan) -> bool
    ensures { result ≡ is_right plan.now.status plan.now.bound plan.now.cost }
{
    match plan.status {
        Status::Optimal => plan.bound == plan.cost,
        Status::Bounded => plan.bound != plan.cost,
    }
}
