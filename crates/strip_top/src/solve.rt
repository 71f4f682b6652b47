// A plan of an instance, with one worker or several.
ghost use Rattle.std.specs.Prelude.{◌≡◌, ◌≤◌, IfOk};
ghost use Rattle.strip_model.specs.Film.{FilmData};
ghost use Rattle.strip_film.specs.Path.{IsComplete};
ghost use Rattle.strip_film.specs.Shown.{path_data};
ghost use Rattle.strip_bound.specs.Tables.{AreTables};
ghost use Rattle.strip_model.specs.FilmOf.{film_of};
ghost use Rattle.strip_reduce.specs.Law.{StandsFor};
ghost use Rattle.strip_reduce.specs.Reduction.{reduced as reduction};
ghost use Rattle.strip_reduce.specs.Shown.{reduced_data};
ghost use Rattle.strip_proof.specs.Plan.{plan_data};
ghost use Rattle.strip_solve.specs.Answer.{IsAnswerFor, MayBe};
ghost use Rattle.strip_solve.specs.Own.{IsOwn};
ghost use Rattle.strip_solve.specs.Searched.{IsSearchedFrom};
ghost use Rattle.strip_solve.specs.Solved.{IsSolved, IsSolvedBy};

use crate::choosing::{choose_alone, choose_beside};
use crate::ending::{Closed, end_alone, layers_beside, walk_beside};
use crate::setup::{Setup, Team};
use crate::told::Told;
use std::alloc::Global;
use std::marker::Brand;
use std::sync::Wait;
use std::thread::Threads;
use strip_bound::{BoundTables, Bounded, Bounds, FilmBounds};
use strip_film::{Film, Path};
use strip_hand::{Gate, OpenGate};
use strip_io::Memory;
use strip_lines::laws::the_rules_are_true;
use strip_memo::{Shared, Store};
use strip_model::Instance;
use strip_proof::Plan;
use strip_reduce::{ReduceFault, Reduced, reduce};
use strip_solve::{Own, SearchOptions, Searched, own_cost, own_order, plan_of, useful_tries};
use strip_start::{greedy, improve, or_listed, vary, vary_beside};

/// Finds a plan of the instance, with one worker. It fails with `TooManyClasses` if more than 64 classes are left. It
/// takes memory for the lines and entries before it searches.
pub fn solve_alone(
    alloc: Global,
    inst: &Instance,
    options: SearchOptions,
) -> Result<Plan, ReduceFault>
    requires { MayBe options }
    ensures { IsAnswerFor options inst.now result }
{
    solve_through(alloc, inst, options, &OpenGate)
}

/// Finds a plan as `solve_alone` does, and reports progress to the gate.
pub fn solve_through<G: Gate>(
    alloc: Global,
    inst: &Instance,
    options: SearchOptions,
    gate: &G,
) -> Result<Plan, ReduceFault>
    requires { MayBe options }
    ensures { IsAnswerFor options inst.now result }
{
    inst.keeps_limits();
    the_rules_are_true();
    let reduced = reduce(alloc, inst)?;
    reduced.film.keeps_limits();
    match solve_classes(alloc, inst, &reduced, options, gate) {
        Ok(plan) => Ok(plan),
        Err(Memory) => Err(ReduceFault::Memory),
    }
}

/// Finds a plan as `solve_alone` does, with `workers` workers in parallel, 2 to 64, and reports progress to the gate.
pub fn solve_beside<R: Threads + Wait + Sync, G: Gate>(
    rt: &R,
    alloc: Global,
    inst: &Instance,
    options: SearchOptions,
    workers: u32,
    gate: &G,
) -> Result<Plan, ReduceFault>
    requires options { MayBe options }
    requires workers { (2 ≤ workers) × (workers ≤ 64) }
    ensures { IsAnswerFor options inst.now result }
{
    inst.keeps_limits();
    the_rules_are_true();
    let reduced = reduce(alloc, inst)?;
    reduced.film.keeps_limits();
    let team = Team { rt, workers };
    match solve_classes_beside(&team, alloc, inst, &reduced, options, gate) {
        Ok(plan) => Ok(plan),
        Err(Memory) => Err(ReduceFault::Memory),
    }
}

/// Finds a plan of the instance from its classes, with one worker.
fn solve_classes<G: Gate>(
    alloc: Global,
    inst: &Instance,
    reduced: &Reduced,
    options: SearchOptions,
    gate: &G,
) -> Result<Plan, Memory>
    requires { MayBe options }
    ensures { reduced_data reduced.now ≡ reduction (film_of inst.now) → StandsFor (film_of inst.now) (reduced_data reduced.now)
        → IfOk result (λ plan. IsSolvedBy options.auto options.kind (film_of inst.now) options.nodes (plan_data plan)) }
{
    let own = own_order(alloc, inst)?;
    if options.auto {
        choose_alone(alloc, reduced, own, options, gate)
    } else {
        plan_alone(alloc, reduced, own, options, gate)
    }
}

/// Finds a plan of the instance from its classes, with several workers.
fn solve_classes_beside<R: Threads + Wait + Sync, G: Gate>(
    team: &Team<R>,
    alloc: Global,
    inst: &Instance,
    reduced: &Reduced,
    options: SearchOptions,
    gate: &G,
) -> Result<Plan, Memory>
    requires options { MayBe options }
    requires workers { (2 ≤ team.now.workers) × (team.now.workers ≤ 64) }
    ensures { reduced_data reduced.now ≡ reduction (film_of inst.now) → StandsFor (film_of inst.now) (reduced_data reduced.now)
        → IfOk result (λ plan. IsSolvedBy options.auto options.kind (film_of inst.now) options.nodes (plan_data plan)) }
{
    let own = own_order(alloc, inst)?;
    if options.auto {
        choose_beside(team, alloc, reduced, own, options, gate)
    } else {
        plan_beside(team, alloc, reduced, own, options, gate)
    }
}

/// Finds a plan of any film that the classes stand for, with one worker and the kind of bounds and steps in the
/// options.
fn plan_alone<G: Gate>(
    alloc: Global,
    reduced: &Reduced,
    own: Option<Own>,
    options: SearchOptions,
    gate: &G,
) -> Result<Plan, Memory>
    requires { MayBe options }
    ensures { (film : FilmData) → reduced_data reduced.now ≡ reduction film → StandsFor film (reduced_data reduced.now)
        → IsOwn film own → IfOk result (λ plan. IsSolved options.kind film options.nodes (plan_data plan)) }
{
    let film = &reduced.film;
    film.keeps_limits();
    let start = improve(film, &greedy(film));
    let apart = reduced.apart;
    let setup = Setup {
        alloc,
        options,
        own: own_cost(&own, apart),
        gate: Told { gate, apart },
    };
    let searched = search(film, &start, &setup)?;
    plan_of(alloc, reduced, &start, options, own, searched)
}

/// Finds such a plan with several workers.
fn plan_beside<R: Threads + Wait + Sync, G: Gate>(
    team: &Team<R>,
    alloc: Global,
    reduced: &Reduced,
    own: Option<Own>,
    options: SearchOptions,
    gate: &G,
) -> Result<Plan, Memory>
    requires options { MayBe options }
    requires workers { (2 ≤ team.now.workers) × (team.now.workers ≤ 64) }
    ensures { (film : FilmData) → reduced_data reduced.now ≡ reduction film → StandsFor film (reduced_data reduced.now)
        → IsOwn film own → IfOk result (λ plan. IsSolved options.kind film options.nodes (plan_data plan)) }
{
    let film = &reduced.film;
    film.keeps_limits();
    let start = improve(film, &greedy(film));
    let apart = reduced.apart;
    let setup = Setup {
        alloc,
        options,
        own: own_cost(&own, apart),
        gate: Told { gate, apart },
    };
    let searched = search_beside(team, film, &start, &setup)?;
    plan_of(alloc, reduced, &start, options, own, searched)
}

/// Searches a film with one worker, after a local search from this path. It begins with the order of the scenes'
/// numbers if that is cheaper.
pub(crate) fn search<G: Gate>(
    film: &Film,
    start: &Path,
    setup: &Setup<G>,
) -> Result<Searched, Memory>
    requires start { IsComplete film.now (path_data start.now) }
    requires options { MayBe setup.now.options }
    ensures { IfOk result (IsSearchedFrom setup.now.options.kind film.now (path_data start.now)
        setup.now.options.nodes setup.now.own) }
{
    let tables = BoundTables::of(setup.alloc, film)?;
    search_by_tables::<Brand, G>(film, &tables, start, setup)
}

/// Searches a film as `search` does, by the bounds from its tables. A type brand names the film and the kind of the
/// bounds.
fn search_by_tables<N: Bounded, G: Gate>(
    film: &Film,
    tables: &BoundTables,
    start: &Path,
    setup: &Setup<G>,
) -> Result<Searched, Memory>
    requires film { film.now ≡ N.film }
    requires kind { setup.now.options.kind ≡ N.kind }
    requires tables { AreTables film.now tables.now }
    requires start { IsComplete film.now (path_data start.now) }
    requires options { MayBe setup.now.options }
    ensures { IfOk result (IsSearchedFrom setup.now.options.kind film.now (path_data start.now)
        setup.now.options.nodes setup.now.own) }
{
    let options = setup.options;
    let bounds: FilmBounds<N> = FilmBounds::new(film, tables, options.kind);
    let varied = vary(film, start, useful_tries(&bounds, start, options.tries));
    let begun = or_listed(film, &varied);
    let Closed { ended, trimmed } = end_alone(&bounds, &begun, setup)?;
    setup.gate.end(options.kind, &ended, options.nodes);
    Ok(Searched {
        begun,
        ended,
        trimmed,
    })
}

/// Searches a film as `search` does, but with several workers. A depth-first search shares a store of static bounds.
pub(crate) fn search_beside<R: Threads + Wait + Sync, G: Gate>(
    team: &Team<R>,
    film: &Film,
    start: &Path,
    setup: &Setup<G>,
) -> Result<Searched, Memory>
    requires start { IsComplete film.now (path_data start.now) }
    requires options { MayBe setup.now.options }
    requires workers { (2 ≤ team.now.workers) × (team.now.workers ≤ 64) }
    ensures { IfOk result (IsSearchedFrom setup.now.options.kind film.now (path_data start.now)
        setup.now.options.nodes setup.now.own) }
{
    let tables = BoundTables::of(setup.alloc, film)?;
    search_beside_by_tables::<Brand, R, G>(team, film, &tables, start, setup)
}

/// Searches a film as `search_beside` does, by the bounds from its tables. A type brand names the film and the kind of
/// the bounds, and ties the locks of a store to them.
fn search_beside_by_tables<N: Bounded + Send + Sync, R: Threads + Wait + Sync, G: Gate>(
    team: &Team<R>,
    film: &Film,
    tables: &BoundTables,
    start: &Path,
    setup: &Setup<G>,
) -> Result<Searched, Memory>
    requires film { film.now ≡ N.film }
    requires kind { setup.now.options.kind ≡ N.kind }
    requires tables { AreTables film.now tables.now }
    requires start { IsComplete film.now (path_data start.now) }
    requires options { MayBe setup.now.options }
    requires workers { (2 ≤ team.now.workers) × (team.now.workers ≤ 64) }
    ensures { IfOk result (IsSearchedFrom setup.now.options.kind film.now (path_data start.now)
        setup.now.options.nodes setup.now.own) }
{
    let bounds: FilmBounds<N> = FilmBounds::new(film, tables, setup.options.kind);
    match setup.options.steps {
        None => search_stored::<N, R, _, G>(team, &bounds, start, setup),
        Some(steps) => search_layers(team, &bounds, start, steps, setup),
    }
}

/// Searches by layers, in `steps` steps. The workers share only answers to requests, so no store is made.
fn search_layers<R: Threads + Wait + Sync, B: Bounds + Sync, G: Gate>(
    team: &Team<R>,
    bounds: &B,
    start: &Path,
    steps: u32,
    setup: &Setup<G>,
) -> Result<Searched, Memory>
    requires start { IsComplete B.film (path_data start.now) }
    requires options { MayBe setup.now.options }
    requires workers { (2 ≤ team.now.workers) × (team.now.workers ≤ 64) }
    ensures { IfOk result (IsSearchedFrom B.kind B.film (path_data start.now) setup.now.options.nodes setup.now.own) }
{
    let options = setup.options;
    let tries = useful_tries(bounds, start, options.tries);
    let varied = vary_beside(team.rt, bounds.film(), start, tries, team.workers);
    let begun = or_listed(bounds.film(), &varied);
    let Closed { ended, trimmed } = layers_beside(team, bounds, &begun, steps, setup)?;
    setup.gate.end(options.kind, &ended, options.nodes);
    Ok(Searched {
        begun,
        ended,
        trimmed,
    })
}

/// Searches depth-first with a store of static bounds. A type brand ties the store's locks to the bound whose values
/// they guard.
fn search_stored<N: Bounded + Send + Sync, R: Threads + Wait + Sync, B: Bounds + Sync, G: Gate>(
    team: &Team<R>,
    bounds: &B,
    start: &Path,
    setup: &Setup<G>,
) -> Result<Searched, Memory>
    requires kind { B.kind ≡ N.kind }
    requires film { B.film ≡ N.film }
    requires start { IsComplete B.film (path_data start.now) }
    requires options { MayBe setup.now.options }
    requires workers { (2 ≤ team.now.workers) × (team.now.workers ≤ 64) }
    ensures { IfOk result (IsSearchedFrom B.kind B.film (path_data start.now) setup.now.options.nodes setup.now.own) }
{
    let options = setup.options;
    let store: Store<N> = Store::new(setup.alloc, bounds.kind(), bounds.film().scenes())?;
    let stored: Shared<R, N, B> = Shared::new(team.rt, &store, bounds);
    let tries = useful_tries(&stored, start, options.tries);
    let varied = vary_beside(team.rt, bounds.film(), start, tries, team.workers);
    let begun = or_listed(bounds.film(), &varied);
    let Closed { ended, trimmed } = walk_beside(team, &stored, &begun, setup)?;
    setup.gate.end(options.kind, &ended, options.nodes);
    Ok(Searched {
        begun,
        ended,
        trimmed,
    })
}
