// Films compared with their reductions: the costs, the scenes of the classes' orders, and the number of classes.
ghost use Rattle.std.specs.Prelude.{◌↔◌, ◌<◌, All, IsTrue};

use crate::cheapest::cheapest_order;
use crate::classes::{Reduction, joins, tables};
use crate::kept::{Kept, films, is_priced};
use crate::lists::{Lists, casts_of_two, film_of, instance, instance_of};
use std::alloc::Global;
use std::test::Fail;
use strip_model::Instance;
use strip_reduce::{ReduceFault, Reduced, expand, orient, reduce};

#[test]
fn reduced_films_cost_the_same_but_for_what_is_set_apart(rt: HostRuntime) -> Result<(), Fail> {
    let alloc = rt.alloc();
    for rows in films() {
        assert!(&rt; kept_films_cost_the_same(alloc, rows)?);
    }
    for table in tables() {
        assert!(&rt; all_cost_the_same(alloc, table)?);
    }
    Ok(())
}

fn kept_films_cost_the_same(alloc: Global, rows: &[Kept]) -> Result<bool, Fail> {
    for row in rows {
        if !costs_the_same(alloc, &row.film)? {
            return Ok(false);
        }
    }
    Ok(true)
}

fn all_cost_the_same(alloc: Global, table: &[Reduction]) -> Result<bool, Fail> {
    for row in table {
        if !costs_the_same(alloc, &row.film)? {
            return Ok(false);
        }
    }
    Ok(true)
}

// Tells whether the cheapest order of the classes, plus the cost set apart, pays as little as the cheapest order of the
// scenes. Its scenes have to be an order that keeps the pairs and pays as much.
fn costs_the_same(alloc: Global, lists: &Lists) -> Result<bool, Fail> {
    let inst = instance_of(alloc, lists)?;
    let least = least_pay(alloc, lists)?;
    let reduced = reduce(alloc, &inst)?;
    is_as_cheap(alloc, &inst, &reduced, least)
}

fn least_pay(alloc: Global, lists: &Lists) -> Result<u64, Fail> {
    let film = film_of(alloc, lists)?;
    let best = cheapest_order(alloc, &film)?;
    Ok(best.pay)
}

fn is_as_cheap(
    alloc: Global,
    inst: &Instance,
    reduced: &Reduced,
    least: u64,
) -> Result<bool, Fail> {
    let best = cheapest_order(alloc, &reduced.film)?;
    let order = way_back(alloc, reduced, &best.order)?;
    Ok(best.pay.checked_add(reduced.apart) == Some(least) && is_priced(inst, &order, least, true))
}

// Returns the scenes of an order of the classes.
fn way_back(alloc: Global, reduced: &Reduced, order: &[u8]) -> Result<Vec<u16>, Fail> {
    if !lie_below(order, reduced.film.scenes()) {
        return Err("an order of the classes".into());
    }
    let scenes = expand(alloc, reduced, order)?;
    Ok(scenes)
}

fn lie_below(order: &[u8], count: usize) -> bool
    ensures { IsTrue result ↔ All (λ class. class < count) order.now }
{
    order.iter().all(|class| (*class as usize) < count)
}

// The index of a row of the table of joins, an order of its classes, and the scenes of this order.
const WAYS_BACK: [(usize, &[u8], &[u16]); 7] = [
    (0, &[0], &[0, 1]),
    (1, &[0], &[0, 2, 1]),
    (2, &[], &[]),
    (2, &[0, 1, 2], &[0, 3, 1, 2]),
    (2, &[2, 1, 0], &[2, 1, 0, 3]),
    (6, &[1, 0, 2], &[5, 0, 3, 2, 1, 4, 6]),
    (6, &[2, 0, 1], &[6, 0, 3, 2, 1, 4, 5]),
];

fn is_way_back(alloc: Global, row: usize, order: &[u8], scenes: &[u16]) -> Result<bool, Fail> {
    let film = &joins().get(row).ok_or("a row of the table")?.film;
    let reduced = reduce(alloc, &instance_of(alloc, film)?)?;
    Ok(way_back(alloc, &reduced, order)?.as_slice() == scenes)
}

fn all_are_ways_back(alloc: Global) -> Result<bool, Fail> {
    for (row, order, scenes) in WAYS_BACK {
        if !is_way_back(alloc, row, order, scenes)? {
            return Ok(false);
        }
    }
    Ok(true)
}

#[test]
fn classes_are_written_as_their_scenes(rt: HostRuntime) -> Result<(), Fail> {
    assert!(&rt; all_are_ways_back(rt.alloc())?);
    Ok(())
}

// Orders, and their oriented form: the order or its reverse.
const ORIENTED: [(&[u8], &[u8]); 7] = [
    (&[], &[]),
    (&[0], &[0]),
    (&[0, 1, 2], &[0, 1, 2]),
    (&[2, 1, 0], &[0, 1, 2]),
    (&[1, 0], &[0, 1]),
    (&[1, 2, 0], &[0, 2, 1]),
    (&[0, 2, 1], &[0, 2, 1]),
];

fn all_are_turned(alloc: Global) -> Result<bool, Fail> {
    for (order, oriented) in ORIENTED {
        let mut turned = Vec::from_slice(alloc, order)?;
        orient(&mut turned);
        if turned.as_slice() != oriented {
            return Ok(false);
        }
    }
    Ok(true)
}

#[test]
fn orders_are_turned_round_where_they_end_lower(rt: HostRuntime) -> Result<(), Fail> {
    assert!(&rt; all_are_turned(rt.alloc())?);
    Ok(())
}

// Tells whether a film of 200 scenes with `kinds` casts of two actors has `kinds` classes that contain all scenes. If
// `too_many` holds, it has to fail with this number of classes instead.
fn has_classes(alloc: Global, kinds: usize, too_many: bool) -> Result<bool, Fail> {
    let casts = casts_of_two(alloc, 200, kinds)?;
    let inst = instance(alloc, &casts, &[1; 200], &[1; 13], &[1; 13])?;
    Ok(match reduce(alloc, &inst) {
        Ok(reduced) => {
            !too_many && reduced.film.scenes() == kinds && scenes_in(&reduced.classes) == 200
        }
        Err(fault) => too_many
            && fault
                == ReduceFault::TooManyClasses {
                    count: kinds as u64,
                },
    })
}

fn scenes_in(classes: &[Vec<u16>]) -> usize {
    classes
        .iter()
        .fold(0, |count: usize, class| count.saturating_add(class.len()))
}

#[test]
fn a_film_has_at_most_64_classes(rt: HostRuntime) -> Result<(), Fail> {
    assert!(&rt; has_classes(rt.alloc(), 64, false)?);
    assert!(&rt; has_classes(rt.alloc(), 65, true)?);
    assert!(&rt; has_classes(rt.alloc(), 70, true)?);
    Ok(())
}
