// The option `--auto`: a search with pair bounds and few lines, then if needed a search by layers with arrival bounds.
ghost use Rattle.std.specs.Prelude.{◌≡◌, ◌≤◌, IfOk, min};
ghost use Rattle.strip_model.specs.declared.kind.Kind.TheVariants.{Arrivals as ByArrivals, Pairs as ByPairs};
ghost use Rattle.strip_model.specs.Film.{FilmData};
ghost use Rattle.strip_model.specs.Order.{IsKeptOrder};
ghost use Rattle.strip_model.specs.Pay.{pay_of};
ghost use Rattle.strip_film.specs.Path.{IsComplete};
ghost use Rattle.strip_film.specs.Shown.{path_data};
ghost use Rattle.strip_bound.specs.Tables.{AreTables};
ghost use Rattle.strip_reduce.specs.Law.{StandsFor};
ghost use Rattle.strip_reduce.specs.Reduction.{reduced as reduction};
ghost use Rattle.strip_reduce.specs.Shown.{reduced_data};
ghost use Rattle.strip_proof.specs.Plan.{plan_data};
ghost use Rattle.strip_solve.specs.Answer.{MayBe};
ghost use Rattle.strip_solve.specs.Own.{IsOwn};
ghost use Rattle.strip_solve.specs.Searched.{IsSearchedFrom};
ghost use Rattle.strip_solve.specs.Solved.{IsChosen};
ghost use Rattle.strip_top.specs.Closed.{GoesOnFrom};

use crate::ending::{Closed, end_alone};
use crate::setup::{Setup, Team};
use crate::solve::{search, search_beside};
use crate::told::Told;
use std::alloc::Global;
use std::marker::Brand;
use std::sync::Wait;
use std::thread::Threads;
use strip_bound::{BoundTables, Bounded, FilmBounds};
use strip_film::{Film, Path};
use strip_hand::Gate;
use strip_io::Memory;
use strip_lines::Ended;
use strip_model::Kind;
use strip_proof::Plan;
use strip_reduce::Reduced;
use strip_solve::{Own, SearchOptions, Searched, own_cost, plan_of, useful_tries};
use strip_start::{greedy, improve, or_listed, path_of, vary_beside};

/// The greatest number of lines of the search with pair bounds. They take a tenth of a second.
const FIRST_LINES: u32 = 50_000;

/// Number of local-search moves for each class on the initial order, if the options give none.
const TRIES_A_CLASS: u32 = 40_000;

/// Number of steps in which the search with arrival bounds raises the bound.
const STEPS: u32 = 16;

/// Makes a plan of any film that the classes stand for, with one worker. It is the plan of a search with pair bounds,
/// if that ends. Otherwise it is the plan of a search by layers with arrival bounds, from the best order of the first
/// search.
pub(crate) fn choose_alone<G: Gate>(
    alloc: Global,
    reduced: &Reduced,
    own: Option<Own>,
    options: SearchOptions,
    gate: &G,
) -> Result<Plan, Memory>
    requires { MayBe options }
    ensures { (film : FilmData) → reduced_data reduced.now ≡ reduction film → StandsFor film (reduced_data reduced.now)
        → IsOwn film own → IfOk result (λ plan. IsChosen film options.nodes (plan_data plan)) }
{
    let film = &reduced.film;
    film.keeps_limits();
    let start = improve(film, &greedy(film));
    let apart = reduced.apart;
    let first = with_pairs(film, options);
    let setup = Setup {
        alloc,
        options: first,
        own: own_cost(&own, apart),
        gate: Told { gate, apart },
    };
    let searched = search(film, &start, &setup)?;
    if searched.trimmed.is_some() {
        return plan_of(alloc, reduced, &start, first, own, searched);
    }
    let second = with_arrivals(options);
    let setup = Setup {
        options: second,
        ..setup
    };
    let searched = go_on_alone(film, &searched.ended, &setup)?;
    plan_of(alloc, reduced, &start, second, own, searched)
}

/// Makes such a plan with several workers, who share the local search before the first search, and answer the bounds of
/// the second. One worker makes the first search, so that its best order is always the same.
pub(crate) fn choose_beside<R: Threads + Wait + Sync, G: Gate>(
    team: &Team<R>,
    alloc: Global,
    reduced: &Reduced,
    own: Option<Own>,
    options: SearchOptions,
    gate: &G,
) -> Result<Plan, Memory>
    requires options { MayBe options }
    requires workers { (2 ≤ team.now.workers) × (team.now.workers ≤ 64) }
    ensures { (film : FilmData) → reduced_data reduced.now ≡ reduction film → StandsFor film (reduced_data reduced.now)
        → IsOwn film own → IfOk result (λ plan. IsChosen film options.nodes (plan_data plan)) }
{
    let film = &reduced.film;
    film.keeps_limits();
    let start = improve(film, &greedy(film));
    let apart = reduced.apart;
    let first = with_pairs(film, options);
    let setup = Setup {
        alloc,
        options: first,
        own: own_cost(&own, apart),
        gate: Told { gate, apart },
    };
    let searched = search_varied(team, film, &start, &setup)?;
    if searched.trimmed.is_some() {
        return plan_of(alloc, reduced, &start, first, own, searched);
    }
    let second = with_arrivals(options);
    let setup = Setup {
        options: second,
        ..setup
    };
    let searched = go_on_beside(team, film, &searched.ended, &setup)?;
    plan_of(alloc, reduced, &start, second, own, searched)
}

/// Returns the options of the first search.
fn with_pairs(film: &Film, options: SearchOptions) -> SearchOptions
    requires { MayBe options }
    ensures may_be { MayBe result }
    ensures kind { result.kind ≡ ByPairs }
    ensures nodes { result.nodes ≡ min options.nodes 50000 }
{
    film.keeps_limits();
    SearchOptions {
        kind: Kind::Pairs,
        nodes: options.nodes.min(FIRST_LINES),
        tries: Some(
            options
                .tries
                .unwrap_or(TRIES_A_CLASS * film.scenes() as u32),
        ),
        steps: None,
        ..options
    }
}

/// Returns the options of the second search. It makes no local-search moves, since the first search made them.
fn with_arrivals(options: SearchOptions) -> SearchOptions
    requires { MayBe options }
    ensures may_be { MayBe result }
    ensures kind { result.kind ≡ ByArrivals }
    ensures nodes { result.nodes ≡ options.nodes }
{
    SearchOptions {
        kind: Kind::Arrivals,
        tries: Some(0),
        steps: Some(STEPS),
        ..options
    }
}

/// Runs a search by one worker, after a local search from this path by several.
fn search_varied<R: Threads + Sync, G: Gate>(
    team: &Team<R>,
    film: &Film,
    start: &Path,
    setup: &Setup<G>,
) -> Result<Searched, Memory>
    requires start { IsComplete film.now (path_data start.now) }
    requires options { MayBe setup.now.options }
    requires workers { (2 ≤ team.now.workers) × (team.now.workers ≤ 64) }
    ensures { IfOk result (IsSearchedFrom setup.now.options.kind film.now (path_data start.now)
        setup.now.options.nodes setup.now.own) }
{
    let tables = BoundTables::of(setup.alloc, film)?;
    search_varied_by_tables::<Brand, R, G>(team, film, &tables, start, setup)
}

/// Runs such a search, by the bounds from the film's tables. A type brand names the film and the kind of the bounds.
fn search_varied_by_tables<N: Bounded, R: Threads + Sync, G: Gate>(
    team: &Team<R>,
    film: &Film,
    tables: &BoundTables,
    start: &Path,
    setup: &Setup<G>,
) -> Result<Searched, Memory>
    requires film { film.now ≡ N.film }
    requires kind { setup.now.options.kind ≡ N.kind }
    requires tables { AreTables film.now tables.now }
    requires start { IsComplete film.now (path_data start.now) }
    requires options { MayBe setup.now.options }
    requires workers { (2 ≤ team.now.workers) × (team.now.workers ≤ 64) }
    ensures { IfOk result (IsSearchedFrom setup.now.options.kind film.now (path_data start.now)
        setup.now.options.nodes setup.now.own) }
{
    let options = setup.options;
    let bounds: FilmBounds<N> = FilmBounds::new(film, tables, options.kind);
    let tries = useful_tries(&bounds, start, options.tries);
    let varied = vary_beside(team.rt, film, start, tries, team.workers);
    let begun = or_listed(film, &varied);
    let Closed { ended, trimmed } = end_alone(&bounds, &begun, setup)?;
    setup.gate.end(options.kind, &ended, options.nodes);
    Ok(Searched {
        begun,
        ended,
        trimmed,
    })
}

/// Runs a search by one worker, from the best order of an earlier search.
fn go_on_alone<G: Gate>(film: &Film, before: &Ended, setup: &Setup<G>) -> Result<Searched, Memory>
    requires order { IsKeptOrder film.now before.now.order.items }
    requires cost { before.now.cost ≡ pay_of film.now before.now.order.items }
    requires options { MayBe setup.now.options }
    ensures { IfOk result (GoesOnFrom setup.now.options.kind film.now before.now.cost
        setup.now.options.nodes setup.now.own) }
{
    let begun = path_of(film, &before.order);
    search(film, &begun, setup)
}

/// Runs a search by several workers, from the best order of an earlier search.
fn go_on_beside<R: Threads + Wait + Sync, G: Gate>(
    team: &Team<R>,
    film: &Film,
    before: &Ended,
    setup: &Setup<G>,
) -> Result<Searched, Memory>
    requires order { IsKeptOrder film.now before.now.order.items }
    requires cost { before.now.cost ≡ pay_of film.now before.now.order.items }
    requires options { MayBe setup.now.options }
    requires workers { (2 ≤ team.now.workers) × (team.now.workers ≤ 64) }
    ensures { IfOk result (GoesOnFrom setup.now.options.kind film.now before.now.cost
        setup.now.options.nodes setup.now.own) }
{
    let begun = path_of(film, &before.order);
    search_beside(team, film, &begun, setup)
}
