// Races (parallel searches) on the ring: a film of five scenes and five actors, each of whom shares a scene with the
// one before and one with the next. Bounds are plain. The actors' days of work cost 30. The order of the rows costs 45,
// since the fifth actor waits three days, at 5 each. If only the first actor waits, three days at 1 each, an order
// costs 33. No order costs less. The ring has two ways from earlier to later scenes. So at least two actors have scenes
// on both sides of any point between two consecutive days. The distances between the actors' scenes then add up to at
// least eight days. Five of these days cause no waiting, and each of the other three costs at least 1.
ghost use Rattle.std.specs.Prelude.{◌≡◌, ◌≤◌};
ghost use Rattle.strip_model.specs.declared.kind.Kind.TheVariants.{Plain};
ghost use Rattle.strip_film.specs.Path.{IsComplete};
ghost use Rattle.strip_film.specs.Shown.{path_data};
ghost use Rattle.strip_bound.specs.Tables.{AreTables};
ghost use Rattle.strip_hand.specs.Limits.{AreLimits};

use crate::least::{film_of, path};
use std::alloc::Global;
use std::marker::Brand;
use std::sync::Wait;
use std::test::Fail;
use std::thread::Threads;
use strip_bound::{BoundTables, Bounded, FilmBounds};
use strip_crew::{Race, race};
use strip_film::{Film, Path};
use strip_hand::{Limits, OpenGate};
use strip_lines::Ended;
use strip_memo::Memo;
use strip_model::Kind;

fn ring(alloc: Global) -> Result<Film, Fail> {
    film_of(
        alloc,
        &[0b10001, 0b00011, 0b00110, 0b01100, 0b11000],
        &[1, 1, 1, 1, 1],
        &[1, 2, 3, 4, 5],
        &[],
    )
}

/// Runs a race from the order of the rows, with `workers` workers, a table of 64 entries, and at most `nodes` lines. The
/// workers take tasks from a counter, or from queues if `steal` holds.
fn raced<R: Threads + Wait + Sync>(
    rt: &R,
    alloc: Global,
    workers: u32,
    nodes: u32,
    steal: bool,
) -> Result<Ended, Fail>
    requires workers { (1 ≤ workers) × (workers ≤ 64) }
    requires nodes { (1 ≤ nodes) × (nodes ≤ 16777216) }
{
    let film = ring(alloc)?;
    let start = path(&film, &[0, 1, 2, 3, 4])?;
    let tables = BoundTables::of(alloc, &film)?;
    let limits = Limits {
        workers,
        nodes,
        entries: 64,
    };
    raced_by::<Brand, R>(rt, alloc, &film, &tables, &start, limits, steal)
}

/// Runs a race with plain bounds. A type brand names their film and kind.
fn raced_by<N: Bounded + Send + Sync, R: Threads + Wait + Sync>(
    rt: &R,
    alloc: Global,
    film: &Film,
    tables: &BoundTables,
    start: &Path,
    limits: Limits,
    steal: bool,
) -> Result<Ended, Fail>
    requires film { film.now ≡ N.film }
    requires kind { Plain ≡ N.kind }
    requires tables { AreTables film.now tables.now }
    requires start { IsComplete film.now (path_data start.now) }
    requires limits { AreLimits limits }
{
    let bounds: FilmBounds<N> = FilmBounds::new(film, tables, Kind::Plain);
    let mut memo = Memo::among(alloc, &bounds, limits.workers + 1)?;
    let lent = Race {
        rt,
        alloc,
        bounds: &bounds,
        gate: &OpenGate,
        limits,
        steal,
    };
    let ended = race(&lent, &mut memo, start)?;
    Ok(ended)
}

/// Tells whether a race ends with the least cost and proves it.
fn is_won<R: Threads + Wait + Sync>(
    rt: &R,
    alloc: Global,
    workers: u32,
    steal: bool,
) -> Result<bool, Fail>
    requires { (1 ≤ workers) × (workers ≤ 64) }
{
    let ended = raced(rt, alloc, workers, 1000, steal)?;
    Ok(!ended.spent && ended.cost == 33 && ended.bound == 33)
}

/// Tells whether a race uses up its lines. With `nodes` lines the least cost can't be proved.
fn runs_out<R: Threads + Wait + Sync>(
    rt: &R,
    alloc: Global,
    workers: u32,
    nodes: u32,
    steal: bool,
) -> Result<bool, Fail>
    requires workers { (1 ≤ workers) × (workers ≤ 64) }
    requires nodes { (1 ≤ nodes) × (nodes ≤ 16777216) }
{
    let ended = raced(rt, alloc, workers, nodes, steal)?;
    Ok(ended.spent && ended.held == u64::from(nodes) && ended.bound <= 33 && ended.cost >= 33)
}

#[test]
fn a_race_ends_with_the_least_cost(rt: HostRuntime) -> Result<(), Fail> {
    let alloc = rt.alloc();
    assert!(&rt; is_won(&rt, alloc, 2, false)?);
    assert!(&rt; is_won(&rt, alloc, 64, false)?);
    assert!(&rt; is_won(&rt, alloc, 2, true)?);
    assert!(&rt; is_won(&rt, alloc, 64, true)?);
    Ok(())
}

// Each path with fewer scenes than a task gets a line, one for each possible remaining set. Two workers have tasks of
// three scenes, after 1 + 5 + 10 lines; 64 workers have tasks of four scenes, after 10 more. With one line the front is
// cut short. With exactly the front's lines, the workers begin and can make none.
#[test]
fn a_race_runs_out_of_lines(rt: HostRuntime) -> Result<(), Fail> {
    let alloc = rt.alloc();
    assert!(&rt; runs_out(&rt, alloc, 2, 1, false)?);
    assert!(&rt; runs_out(&rt, alloc, 64, 1, false)?);
    assert!(&rt; runs_out(&rt, alloc, 2, 16, false)?);
    assert!(&rt; runs_out(&rt, alloc, 64, 26, false)?);
    assert!(&rt; runs_out(&rt, alloc, 2, 1, true)?);
    assert!(&rt; runs_out(&rt, alloc, 2, 16, true)?);
    Ok(())
}
