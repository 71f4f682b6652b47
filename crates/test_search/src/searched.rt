// The search of a film by one worker.
ghost use Rattle.std.specs.Prelude.{◌≡◌, ◌≤◌};
ghost use Rattle.strip_film.specs.Path.{IsComplete};
ghost use Rattle.strip_film.specs.Shown.{path_data};
ghost use Rattle.strip_bound.specs.Tables.{AreTables};

use std::alloc::Global;
use std::marker::Brand;
use strip_alone::alone;
use strip_bound::{BoundTables, Bounded, Bounds, FilmBounds};
use strip_film::{Film, Path};
use strip_io::Memory;
use strip_lines::Ended;
use strip_memo::Memo;
use strip_model::Kind;

/// Runs a search of the film with static bounds of this kind, from this path.
pub(crate) fn searched(
    alloc: Global,
    film: &Film,
    start: &Path,
    kind: Kind,
    nodes: u32,
    entries: u32,
) -> Result<Ended, Memory>
    requires start { IsComplete film.now (path_data start.now) }
    requires nodes { (1 ≤ nodes) × (nodes ≤ 16777216) }
    requires entries { (64 ≤ entries) × (entries ≤ 4194304) }
{
    let tables = BoundTables::of(alloc, film)?;
    searched_under::<Brand>(alloc, film, &tables, start, kind, nodes, entries)
}

/// Runs a search of the film with static bounds from these tables. A type brand names the film and the kind.
fn searched_under<N: Bounded>(
    alloc: Global,
    film: &Film,
    tables: &BoundTables,
    start: &Path,
    kind: Kind,
    nodes: u32,
    entries: u32,
) -> Result<Ended, Memory>
    requires film { film.now ≡ N.film }
    requires kind { kind ≡ N.kind }
    requires tables { AreTables film.now tables.now }
    requires start { IsComplete N.film (path_data start.now) }
    requires nodes { (1 ≤ nodes) × (nodes ≤ 16777216) }
    requires entries { (64 ≤ entries) × (entries ≤ 4194304) }
{
    let bounds: FilmBounds<N> = FilmBounds::new(film, tables, kind);
    searched_by(alloc, &bounds, start, nodes, entries)
}

/// Runs a search with a source of bounds, from this path.
pub(crate) fn searched_by<B: Bounds>(
    alloc: Global,
    bounds: &B,
    start: &Path,
    nodes: u32,
    entries: u32,
) -> Result<Ended, Memory>
    requires start { IsComplete B.film (path_data start.now) }
    requires nodes { (1 ≤ nodes) × (nodes ≤ 16777216) }
    requires entries { (64 ≤ entries) × (entries ≤ 4194304) }
{
    let mut memo = Memo::new(alloc, bounds)?;
    alone(alloc, bounds, &mut memo, start, nodes, entries)
}
