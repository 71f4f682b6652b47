// Open firsts of small films, worked by hand.
use crate::cases::film_of;
use std::alloc::Global;
use std::test::Fail;
use strip_film::Film;
use strip_mask::Mask;
use strip_model::Pair;
use strip_rule::{open_firsts, yields};

struct Row {
    casts: &'static [u64],
    days: &'static [u64],
    pairs: &'static [Pair],
    set: u64,
    open: u64,
}

static ROWS: [Row; 6] = [
    // Each scene has an actor who waits while the other is shot.
    Row {
        casts: &[0b11, 0b01, 0b10],
        days: &[1, 1, 1],
        pairs: &[],
        set: 0b110,
        open: 0b110,
    },
    // Each actor of the last scene is in one of the others, and each of these rules the last scene out.
    Row {
        casts: &[0b01, 0b10, 0b11],
        days: &[1, 1, 1],
        pairs: &[],
        set: 0b111,
        open: 0b011,
    },
    // Two equal casts: the lesser scene rules the greater out.
    Row {
        casts: &[0b1, 0b1],
        days: &[1, 1],
        pairs: &[],
        set: 0b11,
        open: 0b01,
    },
    // The first scene would rule out the second, but it has to follow the third.
    Row {
        casts: &[0b001, 0b011, 0b100],
        days: &[1, 1, 1],
        pairs: &[],
        set: 0b111,
        open: 0b101,
    },
    Row {
        casts: &[0b001, 0b011, 0b100],
        days: &[1, 1, 1],
        pairs: &[Pair { first: 2, then: 0 }],
        set: 0b111,
        open: 0b110,
    },
    // No scene remains.
    Row {
        casts: &[0b1],
        days: &[1],
        pairs: &[],
        set: 0,
        open: 0,
    },
];

#[test]
fn open_firsts_are_those_worked_by_hand(rt: HostRuntime) -> Result<(), Fail> {
    assert!(&rt; all_are_open(rt.alloc(), &ROWS)?);
    Ok(())
}

fn all_are_open(alloc: Global, rows: &[Row]) -> Result<bool, Fail> {
    for row in rows {
        let film = film_of_row(alloc, row)?;
        if opens(&film, Mask(row.set)) != Some(row.open) {
            return Ok(false);
        }
    }
    Ok(true)
}

#[test]
fn of_two_equal_casts_the_lesser_rules(rt: HostRuntime) -> Result<(), Fail> {
    let film = film_of_row(rt.alloc(), &ROWS[2])?;
    assert!(&rt; rules(&film, 0, 1) == Some(true) && rules(&film, 1, 0) == Some(false));
    Ok(())
}

// Returns none if the set has a number that is no scene.
fn opens(film: &Film, set: Mask) -> Option<u64> {
    film.keeps_limits();
    if !set.lies_below(film.scenes() as u32) {
        return None;
    }
    Some(open_firsts(film, set).0)
}

fn rules(film: &Film, t: u32, s: u32) -> Option<bool> {
    film.keeps_limits();
    let all = film.all();
    if t >= 64 || s >= 64 || !all.has(t) || !all.has(s) || !all.lies_below(film.scenes() as u32) {
        return None;
    }
    Some(yields(film, all, t, s))
}

fn film_of_row(alloc: Global, row: &Row) -> Result<Film, Fail> {
    film_of(
        alloc,
        row.casts,
        row.days,
        &[1, 2, 3],
        &[1, 2, 3],
        row.pairs,
    )
}
