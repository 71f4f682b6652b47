// The tasks (subproblems) of a film's search.
ghost use Rattle.std.specs.Prelude.{◌≡◌, ◌≤◌};
ghost use Rattle.strip_bound.specs.Tables.{AreTables};

use crate::films::{film, ring};
use std::alloc::Global;
use std::marker::Brand;
use std::test::Fail;
use strip_bound::{BoundTables, Bounded, FilmBounds};
use strip_film::Film;
use strip_front::{Front, make_front};
use strip_model::Kind;

/// Tells whether the front's tasks are the paths of these scenes, in this order.
fn are_along(front: &Front, scenes: &[&[u8]]) -> bool {
    if front.tasks().len() != scenes.len() {
        return false;
    }
    for (task, along) in front.tasks().iter().zip(scenes.iter()) {
        if task.scenes() != *along {
            return false;
        }
    }
    true
}

/// Tells whether the film's tasks are the paths of these scenes, with at most `most` scenes each and static bounds of
/// this kind.
fn has_tasks(
    alloc: Global,
    film: &Film,
    kind: Kind,
    most: usize,
    scenes: &[&[u8]],
) -> Result<bool, Fail>
    requires { (2 ≤ most) × (most ≤ 4) }
{
    let tables = BoundTables::of(alloc, film)?;
    makes_tasks::<Brand>(alloc, film, &tables, kind, most, scenes)
}

fn makes_tasks<N: Bounded>(
    alloc: Global,
    film: &Film,
    tables: &BoundTables,
    kind: Kind,
    most: usize,
    scenes: &[&[u8]],
) -> Result<bool, Fail>
    requires film { film.now ≡ N.film }
    requires kind { kind ≡ N.kind }
    requires tables { AreTables film.now tables.now }
    requires most { (2 ≤ most) × (most ≤ 4) }
{
    let bounds: FilmBounds<N> = FilmBounds::new(film, tables, kind);
    let front = make_front(alloc, &bounds, most)?;
    Ok(are_along(&front, scenes))
}

// The path of the scenes 1, 0 pays less than that of 0, 1, and replaces it.
static PAIRS: [&'static [u8]; 6] = [&[1, 0], &[0, 2], &[0, 3], &[1, 2], &[1, 3], &[2, 3]];

// The pairs pay 10, 15, 13, 9, 13 and 14. Of two triples with the same scenes, the cheaper one takes the place of the
// first: 1, 2, 0 at 17 for 1, 0, 2 at 19, and 0, 3, 2 at 19 for 0, 2, 3 at 25. The triples 1, 0, 3 and 0, 3, 1 both pay
// 19, so the first stays. 1, 2, 3 pays 17.
static TRIPLES: [&'static [u8]; 4] = [&[1, 2, 0], &[1, 0, 3], &[0, 3, 2], &[1, 2, 3]];

// With the last scene the triples pay 24, 24, 22 and 22: the third is the first of the cheapest.
static WHOLE: [&'static [u8]; 1] = [&[0, 3, 2, 1]];

#[test]
fn the_ring_has_six_tasks(rt: HostRuntime) -> Result<(), Fail> {
    let alloc = rt.alloc();
    assert!(&rt; has_tasks(alloc, &ring(alloc)?, Kind::Plain, 2, &PAIRS)?);
    Ok(())
}

#[test]
fn tasks_have_up_to_four_scenes(rt: HostRuntime) -> Result<(), Fail> {
    let alloc = rt.alloc();
    let ring = ring(alloc)?;
    assert!(&rt; has_tasks(alloc, &ring, Kind::Plain, 3, &TRIPLES)?);
    assert!(&rt; has_tasks(alloc, &ring, Kind::Plain, 4, &WHOLE)?);
    let one_scene = film(alloc, &[0b1], &[1], &[1])?;
    assert!(&rt; has_tasks(alloc, &one_scene, Kind::Plain, 4, &[&[0]])?);
    Ok(())
}

// An independent program of the same rules gives this order.
static BY_PROMISE: [&'static [u8]; 6] = [&[0, 3], &[1, 2], &[1, 0], &[2, 3], &[0, 2], &[1, 3]];

#[test]
fn tasks_that_promise_more_come_first(rt: HostRuntime) -> Result<(), Fail> {
    let alloc = rt.alloc();
    assert!(&rt; has_tasks(alloc, &ring(alloc)?, Kind::Groups, 2, &BY_PROMISE)?);
    Ok(())
}
