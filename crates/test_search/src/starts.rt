// The initial orders of a search. The first two films are worked by hand. An independent program of the definition
// found the other orders: it tries each move of an order in turn, and sums each actor's pay from first to last scene.
use crate::films::film_of;
use std::alloc::Global;
use std::test::Fail;
use strip_film::Film;
use strip_model::Pair;
use strip_start::{greedy, improve};

struct Row {
    casts: &'static [u64],
    days: &'static [u64],
    rates: &'static [u64],
    holds: &'static [u64],
    pairs: &'static [Pair],
    greedy: &'static [u8],
    greedy_pays: u64,
    improved: &'static [u8],
    improved_pays: u64,
}

static ROWS: [Row; 6] = [
    // The least first step is 10, and then both scenes cost 30. If the first scene is moved to the end, nobody waits.
    Row {
        casts: &[0b01, 0b10, 0b11],
        days: &[1, 1, 1],
        rates: &[10, 20],
        holds: &[10, 20],
        pairs: &[],
        greedy: &[0, 1, 2],
        greedy_pays: 70,
        improved: &[1, 2, 0],
        improved_pays: 60,
    },
    // The pair forbids that move and all others of the first scene. If the second scene is moved to the end, nobody
    // waits either.
    Row {
        casts: &[0b01, 0b10, 0b11],
        days: &[1, 1, 1],
        rates: &[10, 20],
        holds: &[10, 20],
        pairs: &[Pair { first: 0, then: 1 }],
        greedy: &[0, 1, 2],
        greedy_pays: 70,
        improved: &[0, 2, 1],
        improved_pays: 60,
    },
    Row {
        casts: &[0b1001, 0b0011, 0b0110, 0b1100],
        days: &[1, 1, 1, 1],
        rates: &[1, 2, 3, 4],
        holds: &[1, 2, 3, 4],
        pairs: &[],
        greedy: &[1, 2, 0, 3],
        greedy_pays: 24,
        improved: &[1, 2, 3, 0],
        improved_pays: 22,
    },
    // The pair forbids the only better move.
    Row {
        casts: &[0b1001, 0b0011, 0b0110, 0b1100],
        days: &[1, 1, 1, 1],
        rates: &[1, 2, 3, 4],
        holds: &[1, 2, 3, 4],
        pairs: &[Pair { first: 0, then: 3 }],
        greedy: &[1, 2, 0, 3],
        greedy_pays: 24,
        improved: &[1, 2, 0, 3],
        improved_pays: 24,
    },
    // Two moves: the third scene of the order goes to the end, and then the first.
    Row {
        casts: &[0b1001, 0b0011, 0b0110, 0b1100],
        days: &[1, 1, 1, 1],
        rates: &[1, 2, 3, 4],
        holds: &[1, 2, 3, 4],
        pairs: &[Pair { first: 0, then: 2 }],
        greedy: &[1, 0, 2, 3],
        greedy_pays: 26,
        improved: &[0, 3, 2, 1],
        improved_pays: 22,
    },
    // 22 moves, to the front and to the end.
    Row {
        casts: &[21, 33, 10, 41, 16, 51, 25, 19, 30],
        days: &[2, 4, 2, 1, 4, 4, 4, 3, 2],
        rates: &[9, 16, 30, 13, 13, 21],
        holds: &[0, 3, 14, 9, 4, 12],
        pairs: &[
            Pair { first: 5, then: 0 },
            Pair { first: 4, then: 2 },
            Pair { first: 3, then: 5 },
            Pair { first: 3, then: 7 },
        ],
        greedy: &[3, 4, 2, 8, 7, 1, 6, 5, 0],
        greedy_pays: 1548,
        improved: &[4, 1, 3, 5, 6, 2, 8, 0, 7],
        improved_pays: 1093,
    },
];

// After 64 moves, two more would be better.
static CUT_OFF: Row = Row {
    casts: &[131, 39, 10, 172, 4, 165, 97, 80, 33, 198, 178, 59],
    days: &[6, 7, 7, 3, 4, 3, 2, 8, 5, 8, 1, 8],
    rates: &[39, 11, 38, 38, 16, 67, 50, 35],
    holds: &[39, 11, 38, 38, 16, 67, 50, 35],
    pairs: &[],
    greedy: &[10, 6, 5, 3, 4, 8, 0, 1, 2, 7, 9, 11],
    greedy_pays: 16813,
    improved: &[7, 4, 9, 0, 10, 6, 5, 3, 1, 11, 8, 2],
    improved_pays: 9345,
};

#[test]
fn begins_with_the_orders_of_the_definition(rt: HostRuntime) -> Result<(), Fail> {
    assert!(&rt; all_begin_so(rt.alloc(), &ROWS)?);
    Ok(())
}

#[test]
fn stops_after_64_moves(rt: HostRuntime) -> Result<(), Fail> {
    let film = film_in(rt.alloc(), &CUT_OFF)?;
    assert!(&rt; begins_so(&film, &CUT_OFF));
    assert!(&rt; pays_when_improved_twice(&film) == 9274);
    Ok(())
}

fn all_begin_so(alloc: Global, rows: &[Row]) -> Result<bool, Fail> {
    for row in rows {
        if !begins_so(&film_in(alloc, row)?, row) {
            return Ok(false);
        }
    }
    Ok(true)
}

fn begins_so(film: &Film, row: &Row) -> bool {
    let begun = greedy(film);
    let better = improve(film, &begun);
    begun.scenes() == row.greedy
        && begun.paid() == row.greedy_pays
        && better.scenes() == row.improved
        && better.paid() == row.improved_pays
}

fn pays_when_improved_twice(film: &Film) -> u64 {
    let once = improve(film, &greedy(film));
    improve(film, &once).paid()
}

fn film_in(alloc: Global, row: &Row) -> Result<Film, Fail> {
    let film = film_of(alloc, row.casts, row.days, row.rates, row.holds, row.pairs)?;
    let film = film.ok_or("within the limits")?;
    Ok(film)
}
