// The bound with arrivals of every set of small films, and the least cost of finishing the set. An independent program
// computed both, by the definition and by trying every first scene.
ghost use Rattle.strip_bound.specs.Tables.{AreTables};
ghost use Rattle.strip_film.specs.Film.{LiesIn};

use crate::cases::{film_of, kept_bound};
use std::alloc::{AllocError, Global};
use std::test::Fail;
use strip_bound::BoundTables;
use strip_film::{Film, step};
use strip_mask::Mask;

// A film, the sum of the bounds of all its sets, and the sum of the sets' finishing costs.
#[derive(Drop)]
struct Row {
    casts: &'static [u64],
    days: &'static [u64],
    rates: &'static [u64],
    holds: &'static [u64],
    bounds: u64,
    costs: u64,
}

static FIRST: [Row; 11] = [
    Row {
        casts: &[0x1, 0x1b, 0xe, 0x13],
        days: &[1, 2, 2, 1],
        rates: &[1, 0, 0, 1, 2],
        holds: &[1, 9, 5, 0, 1],
        bounds: 118,
        costs: 118,
    },
    Row {
        casts: &[0x12, 0x2, 0xd, 0x1b, 0x1e],
        days: &[1, 1, 3, 1, 3],
        rates: &[8, 8, 3, 3, 5],
        holds: &[8, 8, 3, 3, 0],
        bounds: 2509,
        costs: 2512,
    },
    Row {
        casts: &[0x6, 0x0, 0x9, 0x0, 0xe, 0xd],
        days: &[4, 2, 1, 4, 4, 1],
        rates: &[1, 1, 8, 2],
        holds: &[0, 1, 2, 2],
        bounds: 3048,
        costs: 3048,
    },
    Row {
        casts: &[0x6, 0x5, 0xb, 0x0, 0x8, 0x5, 0x9],
        days: &[1, 3, 3, 4, 1, 2, 4],
        rates: &[5, 3, 3, 2],
        holds: &[3, 3, 1, 2],
        bounds: 7404,
        costs: 7412,
    },
    Row {
        casts: &[0x6f, 0x6b, 0x1d, 0x69],
        days: &[3, 2, 4, 2],
        rates: &[3, 1, 2, 2, 8, 5, 1],
        holds: &[3, 1, 2, 0, 8, 5, 2],
        bounds: 1202,
        costs: 1202,
    },
    Row {
        casts: &[0x5d, 0x30, 0x7e, 0x43, 0x14],
        days: &[4, 2, 2, 2, 2],
        rates: &[2, 0, 1, 3, 3, 3, 0],
        holds: &[2, 0, 5, 1, 3, 3, 2],
        bounds: 1478,
        costs: 1490,
    },
    Row {
        casts: &[0x8, 0x18, 0x5, 0x4, 0x7, 0xc],
        days: &[2, 2, 1, 4, 3, 2],
        rates: &[1, 2, 1, 0, 0],
        holds: &[5, 3, 1, 1, 3],
        bounds: 744,
        costs: 744,
    },
    Row {
        casts: &[0x2, 0x3, 0x4, 0x9, 0x7, 0x5, 0x6],
        days: &[4, 3, 3, 1, 4, 2, 2],
        rates: &[5, 8, 0, 8],
        holds: &[2, 1, 2, 0],
        bounds: 10880,
        costs: 10883,
    },
    Row {
        casts: &[0x18, 0x9, 0x16, 0x1a],
        days: &[3, 1, 2, 3],
        rates: &[3, 1, 0, 0, 1],
        holds: &[5, 2, 0, 9, 1],
        bounds: 147,
        costs: 147,
    },
    Row {
        casts: &[0x3e, 0x2f, 0x25, 0xe, 0x30],
        days: &[1, 4, 4, 1, 3],
        rates: &[5, 0, 8, 0, 8, 0],
        holds: &[5, 0, 8, 5, 1, 5],
        bounds: 2587,
        costs: 2592,
    },
    Row {
        casts: &[0x8, 0x8, 0x0, 0x2, 0x0, 0xe],
        days: &[3, 4, 3, 4, 4, 1],
        rates: &[2, 5, 0, 2],
        holds: &[2, 5, 0, 5],
        bounds: 1532,
        costs: 1532,
    },
];

static SECOND: [Row; 11] = [
    Row {
        casts: &[0x8, 0x29, 0x15, 0x1d, 0x12, 0x1b, 0x29],
        days: &[4, 1, 2, 1, 1, 2, 1],
        rates: &[1, 3, 5, 0, 5, 2],
        holds: &[9, 3, 5, 0, 1, 2],
        bounds: 4672,
        costs: 4672,
    },
    Row {
        casts: &[0x9, 0x7, 0xf, 0x9],
        days: &[2, 1, 1, 2],
        rates: &[0, 2, 1, 0],
        holds: &[1, 2, 1, 3],
        bounds: 57,
        costs: 57,
    },
    Row {
        casts: &[0x3c, 0x11, 0x18, 0x26, 0x30],
        days: &[3, 3, 4, 3, 1],
        rates: &[2, 0, 1, 8, 5, 3],
        holds: &[2, 2, 9, 5, 0, 3],
        bounds: 2394,
        costs: 2394,
    },
    Row {
        casts: &[0x58, 0x60, 0x73, 0x5b, 0x60, 0x26],
        days: &[4, 1, 1, 4, 2, 1],
        rates: &[8, 5, 3, 5, 1, 1, 2],
        holds: &[8, 5, 1, 5, 1, 9, 1],
        bounds: 5672,
        costs: 5673,
    },
    Row {
        casts: &[0x3, 0x16, 0x24, 0x2c, 0x2, 0x5, 0x7],
        days: &[3, 3, 2, 4, 3, 3, 3],
        rates: &[1, 1, 2, 0, 0, 2],
        holds: &[2, 1, 9, 9, 1, 2],
        bounds: 5047,
        costs: 5050,
    },
    Row {
        casts: &[0x3c, 0x30, 0x1d, 0x3a],
        days: &[1, 2, 1, 2],
        rates: &[8, 8, 1, 8, 8, 0, 3],
        holds: &[0, 1, 2, 5, 5, 0, 1],
        bounds: 848,
        costs: 848,
    },
    Row {
        casts: &[0x5, 0xe, 0x6, 0xa, 0x3],
        days: &[3, 2, 1, 1, 2],
        rates: &[2, 0, 1, 2],
        holds: &[2, 2, 1, 2],
        bounds: 425,
        costs: 427,
    },
    Row {
        casts: &[0xf, 0x5, 0x7, 0x3, 0xe, 0xe],
        days: &[4, 2, 3, 1, 4, 4],
        rates: &[5, 3, 5, 5],
        holds: &[5, 2, 5, 5],
        bounds: 8443,
        costs: 8447,
    },
    Row {
        casts: &[0x1a, 0x0, 0x11, 0x17, 0x3, 0xf, 0xb],
        days: &[3, 1, 1, 4, 2, 1, 4],
        rates: &[2, 2, 2, 1, 8],
        holds: &[2, 5, 2, 9, 0],
        bounds: 9094,
        costs: 9094,
    },
    Row {
        casts: &[0x79, 0x22, 0x65, 0x5b],
        days: &[1, 4, 4, 3],
        rates: &[1, 8, 5, 2, 3, 2, 2],
        holds: &[3, 8, 5, 2, 3, 0, 2],
        bounds: 1180,
        costs: 1180,
    },
    Row {
        casts: &[0x20, 0x2e, 0x24, 0xe, 0x35],
        days: &[3, 4, 2, 4, 4],
        rates: &[3, 2, 0, 0, 0, 1],
        holds: &[2, 2, 0, 0, 0, 0],
        bounds: 656,
        costs: 656,
    },
];

static THIRD: [Row; 11] = [
    Row {
        casts: &[0x14, 0x3, 0x10, 0x16, 0xf, 0x5],
        days: &[2, 2, 4, 1, 2, 3],
        rates: &[0, 8, 1, 0, 2],
        holds: &[0, 9, 3, 5, 2],
        bounds: 2338,
        costs: 2350,
    },
    Row {
        casts: &[0x10, 0x15, 0x9, 0x1e, 0x13, 0x17, 0x1],
        days: &[3, 1, 1, 1, 4, 4, 3],
        rates: &[0, 0, 5, 5, 3],
        holds: &[0, 5, 9, 9, 3],
        bounds: 5776,
        costs: 5796,
    },
    Row {
        casts: &[0xa, 0x6, 0x3, 0x1c],
        days: &[4, 3, 2, 3],
        rates: &[8, 0, 2, 1, 1],
        holds: &[8, 0, 9, 3, 2],
        bounds: 322,
        costs: 322,
    },
    Row {
        casts: &[0x1a, 0x11, 0x1, 0x1a, 0xc],
        days: &[2, 4, 4, 2, 1],
        rates: &[5, 1, 8, 2, 3],
        holds: &[5, 2, 2, 2, 3],
        bounds: 1540,
        costs: 1540,
    },
    Row {
        casts: &[0x1, 0x3, 0x8, 0xf, 0x3, 0x5],
        days: &[2, 4, 4, 4, 2, 3],
        rates: &[8, 0, 2, 8],
        holds: &[8, 0, 3, 5],
        bounds: 6851,
        costs: 6851,
    },
    Row {
        casts: &[0x21, 0x1b, 0x1c, 0x3f, 0x2e, 0xc, 0x34],
        days: &[2, 4, 4, 4, 1, 3, 4],
        rates: &[1, 8, 8, 8, 0, 5],
        holds: &[1, 8, 8, 8, 9, 5],
        bounds: 30538,
        costs: 30643,
    },
    Row {
        casts: &[0x28, 0xc, 0x13, 0xf],
        days: &[3, 4, 3, 3],
        rates: &[3, 5, 1, 5, 8, 2],
        holds: &[9, 3, 3, 5, 2, 2],
        bounds: 1152,
        costs: 1152,
    },
    Row {
        casts: &[0xf, 0x9, 0xa, 0xd, 0x5],
        days: &[2, 4, 1, 3, 4],
        rates: &[0, 0, 2, 0],
        holds: &[0, 1, 5, 3],
        bounds: 394,
        costs: 394,
    },
    Row {
        casts: &[0x43, 0x5d, 0x66, 0x76, 0x17, 0x3d],
        days: &[1, 3, 2, 2, 4, 1],
        rates: &[8, 3, 3, 1, 1, 0, 0],
        holds: &[9, 3, 1, 5, 9, 0, 9],
        bounds: 6102,
        costs: 6133,
    },
    Row {
        casts: &[0x4, 0x7, 0x8, 0x5, 0x4, 0x0, 0xa],
        days: &[3, 2, 2, 4, 3, 3, 4],
        rates: &[8, 1, 0, 2],
        holds: &[8, 0, 2, 2],
        bounds: 4680,
        costs: 4680,
    },
    Row {
        casts: &[0xc, 0x1e, 0x12, 0x17],
        days: &[3, 4, 1, 3],
        rates: &[2, 8, 0, 2, 8],
        holds: &[2, 8, 0, 2, 5],
        bounds: 1200,
        costs: 1200,
    },
];

static FOURTH: [Row; 11] = [
    Row {
        casts: &[0x59, 0x12, 0x6b, 0x7e, 0x30],
        days: &[4, 1, 2, 1, 3],
        rates: &[0, 5, 2, 5, 5, 0, 8],
        holds: &[5, 1, 2, 1, 9, 1, 9],
        bounds: 2786,
        costs: 2803,
    },
    Row {
        casts: &[0x11, 0x17, 0xa, 0x1f, 0x4, 0x18],
        days: &[1, 3, 2, 4, 1, 3],
        rates: &[0, 2, 2, 8, 5],
        holds: &[0, 3, 2, 2, 5],
        bounds: 5582,
        costs: 5609,
    },
    Row {
        casts: &[0x16, 0x35, 0x10, 0x35, 0x1a, 0x20, 0x3f],
        days: &[4, 3, 4, 4, 4, 2, 1],
        rates: &[8, 8, 1, 2, 0, 0],
        holds: &[1, 0, 1, 9, 2, 0],
        bounds: 10368,
        costs: 10368,
    },
    Row {
        casts: &[0x31, 0x15, 0x76, 0x60],
        days: &[4, 2, 1, 4],
        rates: &[2, 3, 1, 2, 2, 8, 1],
        holds: &[2, 1, 3, 9, 0, 3, 9],
        bounds: 950,
        costs: 956,
    },
    Row {
        casts: &[0x36, 0x3c, 0x1e, 0x16, 0x1f],
        days: &[2, 1, 3, 2, 3],
        rates: &[8, 0, 0, 8, 0, 5],
        holds: &[3, 0, 0, 5, 9, 5],
        bounds: 1580,
        costs: 1580,
    },
    Row {
        casts: &[0x28, 0x3f, 0x7a, 0x6, 0x25, 0xc],
        days: &[2, 3, 1, 4, 1, 2],
        rates: &[1, 0, 8, 0, 2, 3, 1],
        holds: &[9, 0, 0, 0, 1, 3, 1],
        bounds: 3656,
        costs: 3656,
    },
    Row {
        casts: &[0x18, 0x1f, 0x2c, 0x1, 0x15, 0x2f, 0x39],
        days: &[2, 1, 1, 4, 1, 1, 3],
        rates: &[0, 1, 1, 3, 2, 3],
        holds: &[0, 9, 1, 3, 2, 0],
        bounds: 4088,
        costs: 4094,
    },
    Row {
        casts: &[0x9, 0x1, 0x4, 0xd],
        days: &[1, 3, 3, 3],
        rates: &[3, 5, 3, 8],
        holds: &[2, 5, 3, 8],
        bounds: 592,
        costs: 592,
    },
    Row {
        casts: &[0x1c, 0xb, 0x1b, 0x8, 0xb],
        days: &[3, 1, 3, 3, 2],
        rates: &[0, 8, 2, 8, 0],
        holds: &[0, 8, 9, 8, 2],
        bounds: 2424,
        costs: 2424,
    },
    Row {
        casts: &[0x1, 0x2, 0xe, 0xb, 0x5, 0xb],
        days: &[4, 4, 3, 4, 1, 3],
        rates: &[3, 3, 5, 3],
        holds: &[2, 3, 5, 5],
        bounds: 4503,
        costs: 4513,
    },
    Row {
        casts: &[0x2, 0x4, 0xb, 0x3, 0x0, 0xa, 0xc],
        days: &[4, 1, 2, 4, 1, 3, 1],
        rates: &[2, 1, 1, 1],
        holds: &[1, 5, 1, 1],
        bounds: 2546,
        costs: 2546,
    },
];

fn are_bounded(alloc: Global, rows: &[Row]) -> Result<bool, Fail> {
    for row in rows {
        if !is_bounded(alloc, row)? {
            return Ok(false);
        }
    }
    Ok(true)
}

#[test]
fn no_bound_is_above_the_cost_of_finishing(rt: HostRuntime) -> Result<(), Fail> {
    assert!(&rt; are_bounded(rt.alloc(), &FIRST)?);
    assert!(&rt; are_bounded(rt.alloc(), &SECOND)?);
    Ok(())
}

#[test]
fn no_bound_of_more_films_is_above_the_cost(rt: HostRuntime) -> Result<(), Fail> {
    assert!(&rt; are_bounded(rt.alloc(), &THIRD)?);
    assert!(&rt; are_bounded(rt.alloc(), &FOURTH)?);
    Ok(())
}

/// Tells whether each set's bound is at most its finishing cost, and both have the expected sums.
fn is_bounded(alloc: Global, row: &Row) -> Result<bool, Fail> {
    let film = film_of(alloc, row.casts, row.days, row.rates, row.holds, &[])?;
    let tables = BoundTables::of(alloc, &film)?;
    let costs = costs_of(alloc, &film)?;
    Ok(sums(&film, &tables, costs.as_slice()) == Some((row.bounds, row.costs)))
}

/// Returns the sum of the bounds of all sets, and the sum of these costs, or none if a bound is greater than its cost.
fn sums(film: &Film, tables: &BoundTables, costs: &[u64]) -> Option<(u64, u64)>
    requires { AreTables film.now tables.now }
{
    let (mut bounds, mut total) = (0u64, 0u64);
    for number in 0..costs.len() {
        let cost = costs[number];
        match kept_bound(film, tables, Mask(number as u64)) {
            Some(bound) if bound <= cost => {
                bounds = bounds.saturating_add(bound);
                total = total.saturating_add(cost);
            }
            _ => return None,
        }
    }
    Some((bounds, total))
}

/// Returns the least finishing cost of each set of at most seven scenes, by the set's number.
fn costs_of(alloc: Global, film: &Film) -> Result<Vec<u64>, AllocError> {
    film.keeps_limits();
    let mut costs = Vec::new(alloc);
    costs.push(0)?;
    for number in 1..128 {
        let set = Mask(number);
        if set.lies_below(film.scenes() as u32) {
            let cost = cost_of(film, set, costs.as_slice());
            costs.push(cost)?;
        }
    }
    Ok(costs)
}

/// Returns the least finishing cost of a set of at most seven scenes, from those of the smaller sets.
fn cost_of(film: &Film, set: Mask, below: &[u64]) -> u64
    requires { LiesIn film.now set.0 }
{
    let mut least = u64::MAX;
    for scene in 0..7 {
        if set.has(scene) {
            let later = below.get(set.without(scene).0 as usize);
            let later = later.copied().unwrap_or(u64::MAX);
            least = least.min(later.saturating_add(step(film, set, scene)));
        }
    }
    least
}
