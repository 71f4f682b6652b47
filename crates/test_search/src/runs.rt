// The runs of local search. On this film each of the three runs leads to a cheaper order than the run before. An
// independent program of the same steps found the expected order.
use crate::films::film_of;
use std::alloc::Global;
use std::test::Fail;
use std::thread::Threads;
use strip_film::{Film, Path};
use strip_model::Pair;
use strip_start::{greedy, improve, vary, vary_beside};

/// Number of moves in three runs.
const TRIES: u32 = 300_000;

/// The order that the last run leads to, and its pay.
const ORDER: [u8; 24] = [
    21, 0, 10, 5, 11, 12, 13, 2, 15, 8, 17, 1, 18, 7, 14, 22, 20, 4, 3, 16, 23, 6, 9, 19,
];

const PAYS: u64 = 369_815;

#[test]
fn takes_the_order_of_the_last_run(rt: HostRuntime) -> Result<(), Fail> {
    let film = film_of_three_runs(rt.alloc())?;
    assert!(&rt; all_take_the_last(&rt, &film));
    Ok(())
}

fn all_take_the_last<R: Threads + Sync>(rt: &R, film: &Film) -> bool {
    let start = improve(film, &greedy(film));
    is_the_last(&vary(film, &start, TRIES))
        && is_the_last(&vary_beside(rt, film, &start, TRIES, 1))
        && is_the_last(&vary_beside(rt, film, &start, TRIES, 2))
        && is_the_last(&vary_beside(rt, film, &start, TRIES, 4))
        && is_the_last(&vary_beside(rt, film, &start, TRIES, 64))
}

fn is_the_last(path: &Path) -> bool {
    path.scenes() == ORDER.as_slice() && path.paid() == PAYS
}

fn film_of_three_runs(alloc: Global) -> Result<Film, Fail> {
    let casts = [
        2400, 1705, 770, 1541, 3113, 562, 25, 391, 3761, 2049, 18, 2627, 771, 643, 3223, 529, 541,
        1409, 187, 2116, 393, 2064, 1518, 588,
    ];
    let days = [
        4, 5, 5, 2, 4, 4, 2, 1, 1, 4, 3, 1, 5, 3, 1, 1, 4, 4, 2, 3, 2, 5, 2, 2,
    ];
    let rates = [
        1750, 1050, 800, 1700, 1750, 1150, 650, 850, 1150, 350, 350, 1050,
    ];
    let holds = [875, 525, 400, 850, 175, 115, 130, 170, 230, 350, 350, 105];
    let pairs = [
        Pair { first: 10, then: 6 },
        Pair { first: 1, then: 14 },
        Pair {
            first: 13,
            then: 15,
        },
        Pair { first: 13, then: 2 },
        Pair { first: 5, then: 12 },
    ];
    let film = film_of(alloc, &casts, &days, &rates, &holds, &pairs)?;
    let film = film.ok_or("within the limits")?;
    Ok(film)
}
