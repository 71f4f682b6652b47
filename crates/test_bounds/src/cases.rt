// Films from the rows of tables, and their bounds with arrivals.
ghost use Rattle.std.specs.Prelude.{◌≡◌};
ghost use Rattle.strip_film.specs.Film.{LiesIn};
ghost use Rattle.strip_bound.specs.Tables.{AreTables};

use std::alloc::Global;
use std::marker::Brand;
use std::test::Fail;
use strip_bound::{BoundTables, Bounded, Bounds, FilmBounds, Room};
use strip_film::Film;
use strip_mask::Mask;
use strip_model::{Kind, Pair};

/// Makes the film of these lists.
pub(crate) fn film_of(
    alloc: Global,
    casts: &[u64],
    days: &[u64],
    rates: &[u64],
    holds: &[u64],
    pairs: &[Pair],
) -> Result<Film, Fail> {
    let casts = Vec::from_slice(alloc, casts)?;
    let days = Vec::from_slice(alloc, days)?;
    let rates = Vec::from_slice(alloc, rates)?;
    let holds = Vec::from_slice(alloc, holds)?;
    let pairs = Vec::from_slice(alloc, pairs)?;
    let film = Film::of(casts, days, rates, holds, pairs).ok_or("within the limits")?;
    Ok(film)
}

/// Returns the bound with arrivals of the set, or none if the set has a number that is no scene.
pub(crate) fn kept_bound(film: &Film, tables: &BoundTables, set: Mask) -> Option<u64>
    requires { AreTables film.now tables.now }
{
    kept_reach(film, tables, set, u64::MAX)
}

/// Returns the bound with arrivals, or a lower bound of it that reaches `need`; none if the set has a number that is no
/// scene.
pub(crate) fn kept_reach(film: &Film, tables: &BoundTables, set: Mask, need: u64) -> Option<u64>
    requires { AreTables film.now tables.now }
{
    film.keeps_limits();
    if !set.lies_below(film.scenes() as u32) {
        return None;
    }
    Some(reach_of::<Brand>(film, tables, Kind::Arrivals, set, need))
}

/// Returns the bound of this kind, or a lower bound of it that reaches `need`. A type brand names the film and the
/// kind.
fn reach_of<N: Bounded>(film: &Film, tables: &BoundTables, kind: Kind, set: Mask, need: u64) -> u64
    requires film { film.now ≡ N.film }
    requires kind { kind ≡ N.kind }
    requires tables { AreTables film.now tables.now }
    requires lies { LiesIn N.film set.0 }
{
    let bounds: FilmBounds<N> = FilmBounds::new(film, tables, kind);
    bounds.reach(set, need, &mut Room::new())
}
