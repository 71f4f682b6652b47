// Results of searches that begin with the greedy order, without local search, compared with a program that tries every
// order.
ghost use Rattle.std.specs.Prelude.{◌≤◌};

use crate::cheapest::cheapest_order;
use crate::instances::{EIGHT, Film, PAIRED, RANDOM, TRIANGLE, WORKED, instance};
use crate::searched::searched;
use std::alloc::Global;
use std::test::Fail;
use strip_film::{Film as Classes, Line};
use strip_lines::Ended;
use strip_model::Kind;
use strip_reduce::reduce;
use strip_start::{greedy, improve};

/// Tells whether the result of a search with at most `nodes` lines is true of a film with cheapest orders of cost
/// `least`.
fn agrees(ended: &Ended, nodes: u32, least: u64) -> bool {
    if ended.spent {
        ended.bound <= least && least <= ended.cost && ended.held == nodes as u64
    } else {
        ended.cost == least && ended.bound == least
    }
}

/// Tells whether searches agree with 1 to 20 lines, and with enough lines to end.
fn agrees_with_lines(
    alloc: Global,
    film: &Classes,
    least: u64,
    kind: Kind,
    entries: u32,
) -> Result<bool, Fail>
    requires { (64 ≤ entries) × (entries ≤ 4194304) }
{
    for nodes in 1..21 {
        let ended = searched(alloc, film, &greedy(film), kind, nodes, entries)?;
        if !agrees(&ended, nodes, least) {
            return Ok(false);
        }
    }
    let ended = searched(alloc, film, &greedy(film), kind, 1_000_000, entries)?;
    Ok(!ended.spent && agrees(&ended, 1_000_000, least))
}

/// Tells whether searches agree for all kinds of bounds, with a small table and a large one.
fn agrees_by_all_kinds(alloc: Global, text: &str, pairs: &[(u16, u16)]) -> Result<bool, Fail> {
    let film = reduce(alloc, &instance(alloc, text, pairs)?)?.film;
    let least = cheapest_order(alloc, &film)?.pay;
    for kind in [Kind::Plain, Kind::Pairs, Kind::Groups, Kind::Arrivals] {
        if !agrees_with_lines(alloc, &film, least, kind, 64)?
            || !agrees_with_lines(alloc, &film, least, kind, 65_536)?
        {
            return Ok(false);
        }
    }
    Ok(true)
}

fn all_agree(alloc: Global, texts: &[&str]) -> Result<bool, Fail> {
    for text in texts {
        if !agrees_by_all_kinds(alloc, text, &[])? {
            return Ok(false);
        }
    }
    Ok(true)
}

#[test]
fn worked_films_cost_the_least(rt: HostRuntime) -> Result<(), Fail> {
    assert!(&rt; all_agree(rt.alloc(), &WORKED)?);
    Ok(())
}

#[test]
fn random_films_cost_the_least(rt: HostRuntime) -> Result<(), Fail> {
    assert!(&rt; all_agree(rt.alloc(), &RANDOM)?);
    Ok(())
}

fn all_agree_with_pairs(alloc: Global, films: &[Film]) -> Result<bool, Fail> {
    for film in films {
        if !agrees_by_all_kinds(alloc, film.text, film.pairs)? {
            return Ok(false);
        }
    }
    Ok(true)
}

#[test]
fn films_with_pairs_cost_the_least(rt: HostRuntime) -> Result<(), Fail> {
    assert!(&rt; all_agree_with_pairs(rt.alloc(), &PAIRED)?);
    Ok(())
}

#[test]
fn eight_classes_cost_the_least(rt: HostRuntime) -> Result<(), Fail> {
    let alloc = rt.alloc();
    assert!(&rt; agrees_by_all_kinds(alloc, EIGHT, &[])?);
    assert!(&rt; agrees_by_all_kinds(alloc, EIGHT, &[(7, 0), (3, 1), (1, 2)])?);
    Ok(())
}

/// Tells whether the search ended with this cost, order and lines.
fn is_closed(ended: &Ended, cost: u64, order: &[u8], lines: &[Line]) -> bool {
    !ended.spent
        && ended.cost == cost
        && ended.bound == cost
        && ended.held == lines.len() as u64
        && ended.order.as_slice() == order
        && ended.lines.as_slice() == lines
}

// The lines of the triangle with its second scene last. The actors' days of work cost 12. Two orders keep the pairs: in
// one b waits a day, in the other, which begins with the third scene, c does.
static THREE: [Line; 3] = [
    Line { set: 7, bound: 14 },
    Line { set: 6, bound: 11 },
    Line { set: 3, bound: 11 },
];

#[test]
fn the_second_scene_comes_last(rt: HostRuntime) -> Result<(), Fail> {
    let alloc = rt.alloc();
    let film = reduce(alloc, &instance(alloc, TRIANGLE, &[(0, 1), (2, 1)])?)?.film;
    let start = improve(&film, &greedy(&film));
    let ended = searched(alloc, &film, &start, Kind::Pairs, 1_000_000, 65_536)?;
    assert!(&rt; is_closed(&ended, 14, &[0, 2, 1], &THREE));
    Ok(())
}
