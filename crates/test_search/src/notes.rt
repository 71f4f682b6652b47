// Savings of the transposition table: a search without its entries makes more lines.
ghost use Rattle.std.specs.Prelude.{◌≡◌};
ghost use Rattle.strip_film.specs.Path.{IsComplete};
ghost use Rattle.strip_film.specs.Shown.{path_data};
ghost use Rattle.strip_bound.specs.Tables.{AreTables};

use crate::films::eight;
use crate::forgetful::Forgetful;
use crate::searched::searched_by;
use crate::walks::search;
use std::alloc::Global;
use std::marker::Brand;
use std::test::Fail;
use strip_bound::{BoundTables, Bounded, Bounds, FilmBounds};
use strip_film::{Film, Path};
use strip_front::laws::tasks_are_starts;
use strip_front::make_front;
use strip_hand::Limits;
use strip_model::Kind;
use strip_start::{greedy, improve};
use strip_world::World;

/// The result of a search: the cost of its best order and its bound, in units of money, and its number of lines.
#[derive(Clone, Copy, Debug)]
struct Outcome {
    cost: u64,
    bound: u64,
    lines: u64,
}

/// The greatest number of lines of a search, and the number of entries of its table.
const CAP: u32 = 10_000;

const ENTRIES: u32 = 65_536;

/// Runs a search that drops its notes (table entries).
fn without_notes<B: Bounds>(alloc: Global, bounds: &B, start: &Path) -> Result<Outcome, Fail>
    requires start { IsComplete B.film (path_data start.now) }
{
    let film = bounds.film();
    film.keeps_limits();
    tasks_are_starts();
    let mut front = make_front(alloc, bounds, 2)?;
    let limits = Limits {
        workers: 1,
        nodes: CAP,
        entries: ENTRIES,
    };
    let world = World::new(alloc, film, bounds.kind(), start, front.tasks(), &limits)?;
    let mut hand = Forgetful {
        world,
        last_note: None,
    };
    let bound = search(alloc, bounds, &mut hand, &mut front)?;
    Ok(Outcome {
        cost: hand.world.best(0).paid(),
        bound,
        lines: hand.world.lines().len() as u64,
    })
}

/// Runs a search with notes.
fn with_notes<B: Bounds>(alloc: Global, bounds: &B, start: &Path) -> Result<Outcome, Fail>
    requires start { IsComplete B.film (path_data start.now) }
{
    let ended = searched_by(alloc, bounds, start, CAP, ENTRIES)?;
    Ok(Outcome {
        cost: ended.cost,
        bound: ended.bound,
        lines: ended.held,
    })
}

/// Runs both searches with static bounds of this kind from one initial order. The result of the search with notes comes
/// first.
fn both(alloc: Global, film: &Film, kind: Kind) -> Result<[Outcome; 2], Fail> {
    let tables = BoundTables::of(alloc, film)?;
    both_by::<Brand>(alloc, film, &tables, kind)
}

fn both_by<N: Bounded>(
    alloc: Global,
    film: &Film,
    tables: &BoundTables,
    kind: Kind,
) -> Result<[Outcome; 2], Fail>
    requires film { film.now ≡ N.film }
    requires kind { kind ≡ N.kind }
    requires tables { AreTables film.now tables.now }
{
    let bounds: FilmBounds<N> = FilmBounds::new(film, tables, kind);
    let start = improve(film, &greedy(film));
    let noting = with_notes(alloc, &bounds, &start)?;
    let forgetful = without_notes(alloc, &bounds, &start)?;
    Ok([noting, forgetful])
}

/// Tells whether both searches ended with this cost, and with these numbers of lines.
fn have_ended(ends: &[Outcome; 2], cost: u64, lines: [u64; 2]) -> bool {
    let [noting, forgetful] = ends;
    noting.cost == cost
        && noting.bound == cost
        && noting.lines == lines[0]
        && forgetful.cost == cost
        && forgetful.bound == cost
        && forgetful.lines == lines[1]
}

// A cheapest order costs 51. The entry of a set that remains after one path rules out other paths with this set. An
// independent program of the same rules gives these numbers of lines.
#[test]
fn notes_save_lines(rt: HostRuntime) -> Result<(), Fail> {
    let alloc = rt.alloc();
    let film = eight(alloc)?;
    let ends = both(alloc, &film, Kind::Pairs)?;
    assert!(&rt; have_ended(&ends, 51, [48, 75]), "by pairs {ends:?}");
    let ends = both(alloc, &film, Kind::Plain)?;
    assert!(&rt;
        have_ended(&ends, 51, [106, 165]),
        "by plain bounds {ends:?}"
    );
    Ok(())
}
