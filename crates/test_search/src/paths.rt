// Films, their paths and the paths' pay, worked by hand.
ghost use Rattle.std.specs.Prelude.{IfOk};
ghost use Rattle.strip_film.specs.Path.{IsPath};
ghost use Rattle.strip_film.specs.Shown.{path_data};

use crate::films::{CASTS, film, film_of, plain_triangle, triangle};
use std::alloc::Global;
use std::test::Fail;
use strip_film::{Cursor, Film, Path, cast_of, laws, on, ready};
use strip_mask::Mask;
use strip_model::Pair;

fn pair(first: u16, then: u16) -> Pair {
    Pair { first, then }
}

pub(crate) fn path(film: &Film, scenes: &[u32]) -> Result<Path, Fail>
    ensures { IfOk result (λ path. IsPath film.now (path_data path)) }
{
    laws::what_remains_lies_in_the_film();
    let mut path = Path::start(film);
    for scene in scenes {
        if *scene >= 64 || !ready(film, path.rest()).has(*scene) {
            return Err("a ready scene of those that remain".into());
        }
        path = path.extend(film, *scene);
    }
    Ok(path)
}

// A film with scenes of one day each, one of its paths, and the path's pay.
struct Paid {
    casts: &'static [u64],
    rates: &'static [u64],
    holds: &'static [u64],
    scenes: &'static [u32],
    paid: u64,
}

static STEPS: [Paid; 5] = [
    Paid {
        casts: &CASTS,
        rates: &[1, 2, 3],
        holds: &[1, 2, 3],
        scenes: &[0, 1],
        paid: 9,
    },
    Paid {
        casts: &CASTS,
        rates: &[1, 2, 3],
        holds: &[1, 2, 3],
        scenes: &[0, 2],
        paid: 9,
    },
    Paid {
        casts: &CASTS,
        rates: &[1, 2, 3],
        holds: &[1, 2, 3],
        scenes: &[0, 1, 2],
        paid: 13,
    },
    Paid {
        casts: &CASTS,
        rates: &[1, 2, 3],
        holds: &[1, 2, 3],
        scenes: &[2, 1, 0],
        paid: 13,
    },
    Paid {
        casts: &CASTS,
        rates: &[1, 2, 3],
        holds: &[1, 2, 3],
        scenes: &[1, 2, 0],
        paid: 14,
    },
];

// In the last two films waiting has rates of its own. In the very last, only waiting is paid.
static OTHERS: [Paid; 7] = [
    Paid {
        casts: &[0b11, 0b01, 0b10],
        rates: &[1, 10],
        holds: &[1, 10],
        scenes: &[0],
        paid: 11,
    },
    Paid {
        casts: &[0b11, 0b01, 0b10],
        rates: &[1, 10],
        holds: &[1, 10],
        scenes: &[0, 1, 2],
        paid: 32,
    },
    Paid {
        casts: &[0b11, 0b01, 0b10],
        rates: &[1, 10],
        holds: &[1, 10],
        scenes: &[0, 2, 1],
        paid: 23,
    },
    Paid {
        casts: &[0b01, 0b10, 0b11],
        rates: &[10, 20],
        holds: &[10, 20],
        scenes: &[0, 2, 1],
        paid: 60,
    },
    Paid {
        casts: &[0b01, 0b10, 0b11],
        rates: &[10, 20],
        holds: &[10, 20],
        scenes: &[0, 1, 2],
        paid: 70,
    },
    Paid {
        casts: &CASTS,
        rates: &[1, 2, 3],
        holds: &[5, 1, 4],
        scenes: &[0, 2, 1],
        paid: 13,
    },
    Paid {
        casts: &CASTS,
        rates: &[0, 0, 0],
        holds: &[1, 1, 1],
        scenes: &[0, 1, 2],
        paid: 1,
    },
];

fn all_pay(alloc: Global, rows: &[Paid]) -> Result<bool, Fail> {
    for row in rows {
        if !pays(alloc, row)? {
            return Ok(false);
        }
    }
    Ok(true)
}

fn pays(alloc: Global, row: &Paid) -> Result<bool, Fail> {
    let film = film_of(alloc, row.casts, &[1, 1, 1], row.rates, row.holds, &[])?;
    let film = film.ok_or("within the limits")?;
    Ok(path(&film, row.scenes)?.paid() == row.paid)
}

#[test]
fn pays_for_each_step(rt: HostRuntime) -> Result<(), Fail> {
    assert!(&rt; all_pay(rt.alloc(), &STEPS)?);
    assert!(&rt; all_pay(rt.alloc(), &OTHERS)?);
    Ok(())
}

/// Returns the actors of the scenes that remain after the path, and those who are then on location.
fn who_is_there(film: &Film, path: &Path) -> (Mask, Mask)
    requires { IsPath film.now (path_data path.now) }
{
    laws::what_remains_lies_in_the_film();
    (cast_of(film, path.rest()), on(film, path.rest()))
}

#[test]
fn tells_who_is_on_location(rt: HostRuntime) -> Result<(), Fail> {
    let triangle = plain_triangle(rt.alloc())?;
    let (plays, waits) = who_is_there(&triangle, &path(&triangle, &[0])?);
    assert!(&rt; plays.0 == 0b111 && waits.0 == 0b011);
    Ok(())
}

fn ready_after(film: &Film, scenes: &[u32]) -> Result<Mask, Fail> {
    laws::what_remains_lies_in_the_film();
    let path = path(film, scenes)?;
    Ok(ready(film, path.rest()))
}

// Paths, and the scenes that may come next by the pairs.
static READY: [(&'static [u32], u64); 3] = [(&[], 0b101), (&[0], 0b100), (&[0, 2], 0b010)];

fn are_ready(film: &Film) -> Result<bool, Fail> {
    for (scenes, expected) in &READY {
        if ready_after(film, scenes)?.0 != *expected {
            return Ok(false);
        }
    }
    Ok(true)
}

#[test]
fn tells_which_scenes_are_ready(rt: HostRuntime) -> Result<(), Fail> {
    let pairs = [pair(0, 1), pair(2, 1)];
    let triangle = triangle(rt.alloc(), &[1, 2, 3], &[1, 2, 3], &pairs)?;
    assert!(&rt; are_ready(&triangle)?);
    assert!(&rt; path(&triangle, &[0, 2, 1])?.paid() == 14);
    Ok(())
}

// Lists that make no film.
struct Lists {
    casts: &'static [u64],
    days: &'static [u64],
    rates: &'static [u64],
    holds: &'static [u64],
}

static BROKEN: [Lists; 10] = [
    Lists {
        casts: &[],
        days: &[],
        rates: &[1],
        holds: &[1],
    },
    Lists {
        casts: &[0b1],
        days: &[1, 1],
        rates: &[1],
        holds: &[1],
    },
    Lists {
        casts: &[0b1],
        days: &[0],
        rates: &[1],
        holds: &[1],
    },
    Lists {
        casts: &[0b1],
        days: &[19_801],
        rates: &[1],
        holds: &[1],
    },
    Lists {
        casts: &[0b1],
        days: &[1],
        rates: &[64_000_000_001],
        holds: &[1],
    },
    Lists {
        casts: &[0b1],
        days: &[1],
        rates: &[1],
        holds: &[64_000_000_001],
    },
    Lists {
        casts: &[0b1],
        days: &[1],
        rates: &[1],
        holds: &[1, 1],
    },
    Lists {
        casts: &[0b10],
        days: &[1],
        rates: &[1],
        holds: &[1],
    },
    Lists {
        casts: &[0b1; 65],
        days: &[1; 65],
        rates: &[1],
        holds: &[1],
    },
    Lists {
        casts: &[0b1],
        days: &[1],
        rates: &[1; 65],
        holds: &[1; 65],
    },
];

fn all_are_refused(alloc: Global, rows: &[Lists]) -> Result<bool, Fail> {
    for row in rows {
        let film = film_of(alloc, row.casts, row.days, row.rates, row.holds, &[])?;
        if film.is_some() {
            return Ok(false);
        }
    }
    Ok(true)
}

#[test]
fn refuses_each_broken_limit(rt: HostRuntime) -> Result<(), Fail> {
    let alloc = rt.alloc();
    let most = [0, 64_000_000_000];
    let accepted = film(alloc, &[0b11], &[19_800], &most)?;
    assert!(&rt; accepted.scenes() == 1);
    assert!(&rt; all_are_refused(alloc, &BROKEN)?);
    Ok(())
}

// A pair of a scene with itself, a pair with an unknown scene, a duplicate pair, and a cycle.
static UNKEPT: [&'static [Pair]; 4] = [
    &[Pair { first: 1, then: 1 }],
    &[Pair { first: 0, then: 3 }],
    &[Pair { first: 0, then: 1 }, Pair { first: 0, then: 1 }],
    &[
        Pair { first: 0, then: 1 },
        Pair { first: 1, then: 2 },
        Pair { first: 2, then: 0 },
    ],
];

fn all_pairs_are_refused(alloc: Global) -> Result<bool, Fail> {
    let rates = [1, 2, 3];
    for pairs in &UNKEPT {
        let film = film_of(alloc, &CASTS, &[1, 1, 1], &rates, &rates, pairs)?;
        if film.is_some() {
            return Ok(false);
        }
    }
    Ok(true)
}

#[test]
fn refuses_pairs_that_cannot_be_kept(rt: HostRuntime) -> Result<(), Fail> {
    let alloc = rt.alloc();
    let kept = [pair(0, 1), pair(1, 2), pair(0, 2)];
    let accepted = triangle(alloc, &[1, 2, 3], &[1, 2, 3], &kept)?;
    assert!(&rt; accepted.pairs() == kept.as_slice());
    assert!(&rt; all_pairs_are_refused(alloc)?);
    Ok(())
}

/// Makes a film of 64 scenes, each with all 64 actors.
fn largest(alloc: Global) -> Result<Film, Fail> {
    let mut days = [314; 64];
    days[63] = 18;
    film(alloc, &[u64::MAX; 64], &days, &[1_000_000_000; 64])
}

/// Tells whether a copy of the film has the path of all 64 scenes, and this path pays `paid`.
fn pays_as_a_whole(film: &Film, paid: u64) -> Result<bool, Fail> {
    let mut order = [0; 64];
    for scene in 0..64 {
        order[scene] = scene as u32;
    }
    let copy = film.copy()?;
    let whole = path(&copy, &order)?;
    Ok(whole.rest().is_empty() && whole.paid() == paid)
}

// All days, at the rate of all actors.
#[test]
fn takes_the_largest_film(rt: HostRuntime) -> Result<(), Fail> {
    let largest = largest(rt.alloc())?;
    assert!(&rt; pays_as_a_whole(&largest, 1_267_200_000_000_000)?);
    Ok(())
}

fn is_last(cursor: &Cursor, scenes: &[u8]) -> bool {
    match cursor.last() {
        Some(last) => last.scenes() == scenes,
        None => false,
    }
}

#[test]
fn keeps_the_last_path(rt: HostRuntime) -> Result<(), Fail> {
    let triangle = plain_triangle(rt.alloc())?;
    let mut cursor = Cursor::of(7);
    assert!(&rt; cursor.last().is_none());
    cursor.moved(&path(&triangle, &[0, 2])?);
    assert!(&rt; is_last(&cursor, &[0, 2]) && cursor.task() == 7);
    Ok(())
}
