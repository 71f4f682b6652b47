// The bound with arrivals, by the newcomers that each group takes: those who share scenes with it. An independent
// program chose them and computed the bounds by the definition.
ghost use Rattle.strip_bound.specs.Tables.{AreTables};

use crate::cases::{film_of, kept_bound};
use std::alloc::Global;
use std::test::Fail;
use strip_bound::BoundTables;
use strip_film::Film;
use strip_mask::Mask;

// A film, the bounds of some of its sets, and the sum of the bounds of all sets of its first six scenes.
#[derive(Drop)]
struct Row {
    casts: &'static [u64],
    days: &'static [u64],
    rates: &'static [u64],
    holds: &'static [u64],
    bounds: &'static [(u64, u64)],
    sum: u64,
}

// Random actors. Some sets have more newcomers than a group takes, some have one or none.
static MIXED: [Row; 4] = [
    Row {
        casts: &[0x4, 0xa0, 0xd0, 0x77, 0x5, 0x2],
        days: &[4, 2, 1, 2, 1, 2],
        rates: &[5, 5, 5, 1, 0, 2, 8, 0],
        holds: &[5, 5, 9, 1, 5, 2, 8, 0],
        bounds: &[(0x8, 50), (0x1d, 88), (0x2d, 120)],
        sum: 3961,
    },
    Row {
        casts: &[0x260, 0x4c, 0x6aa, 0x118, 0x197, 0x401],
        days: &[3, 1, 2, 4, 1, 1],
        rates: &[8, 5, 5, 0, 1, 2, 5, 5, 5, 3, 2],
        holds: &[8, 5, 5, 2, 1, 5, 0, 5, 9, 3, 2],
        bounds: &[(0x11, 67), (0x39, 125), (0x3a, 96)],
        sum: 5744,
    },
    Row {
        casts: &[0x481, 0x111, 0xd2, 0x122, 0xe45, 0x424],
        days: &[2, 3, 1, 1, 1, 4],
        rates: &[2, 8, 2, 0, 0, 1, 1, 1, 2, 8, 2, 2],
        holds: &[2, 8, 2, 0, 0, 5, 1, 1, 2, 8, 3, 3],
        bounds: &[(0x1e, 64), (0x26, 72), (0x3b, 77)],
        sum: 3314,
    },
    Row {
        casts: &[0x6a, 0x33, 0x2, 0x50, 0xc, 0x10],
        days: &[4, 3, 3, 1, 4, 3],
        rates: &[5, 8, 2, 8, 8, 1, 3],
        holds: &[0, 0, 0, 9, 1, 5, 5],
        bounds: &[(0x1a, 155), (0x1b, 201), (0x37, 238)],
        sum: 8328,
    },
];

// Story lines, whose actors share scenes. Some newcomers share no scene with the group.
static LINES: [Row; 3] = [
    Row {
        casts: &[0x4c, 0x91, 0x142, 0xa9, 0x103, 0x3c],
        days: &[3, 3, 2, 4, 3, 1],
        rates: &[1, 5, 8, 0, 1, 0, 2, 1, 2],
        holds: &[1, 5, 9, 5, 3, 9, 2, 2, 5],
        bounds: &[(0x13, 126), (0x3d, 95), (0x3e, 96)],
        sum: 4951,
    },
    Row {
        casts: &[0x598, 0xc5c, 0x201, 0x183, 0x226, 0x9a3],
        days: &[2, 1, 1, 3, 4, 1],
        rates: &[1, 8, 5, 8, 2, 1, 2, 8, 0, 8, 8, 2],
        holds: &[5, 8, 9, 8, 1, 1, 5, 8, 0, 8, 2, 1],
        bounds: &[(0xe, 132), (0x27, 151), (0x3d, 244)],
        sum: 10121,
    },
    Row {
        casts: &[0x83, 0x170, 0x8a, 0x548, 0x95, 0x213],
        days: &[1, 1, 4, 3, 2, 4],
        rates: &[8, 8, 2, 5, 0, 0, 8, 1, 5, 3, 2],
        holds: &[3, 0, 2, 5, 1, 9, 8, 3, 5, 1, 1],
        bounds: &[(0x17, 131), (0x1f, 173), (0x3d, 234)],
        sum: 8613,
    },
];

// Equal days, and hold rates of one or two: scores are often equal.
static EQUALS: [Row; 5] = [
    Row {
        casts: &[0x18d, 0x808, 0x5d1, 0x318, 0x701, 0x940],
        days: &[2, 2, 2, 2, 2, 2],
        rates: &[3, 3, 3, 3, 3, 3, 3, 3, 3, 3, 3, 3],
        holds: &[2, 2, 2, 1, 1, 2, 2, 2, 2, 2, 1, 2],
        bounds: &[(0x6, 54), (0x1f, 138), (0x27, 100)],
        sum: 5222,
    },
    Row {
        casts: &[0x91, 0x150, 0x14a, 0x29, 0xac, 0x42],
        days: &[2, 2, 2, 2, 2, 2],
        rates: &[3, 3, 3, 3, 3, 3, 3, 3, 3],
        holds: &[1, 2, 1, 1, 1, 2, 2, 2, 2],
        bounds: &[(0x5, 50), (0x1f, 106), (0x2f, 96)],
        sum: 4232,
    },
    Row {
        casts: &[0x9a9, 0xd83, 0x892, 0x608, 0x5c, 0x369],
        days: &[1, 1, 1, 1, 1, 1],
        rates: &[2, 2, 2, 2, 2, 2, 2, 2, 2, 2, 2, 2],
        holds: &[1, 2, 1, 2, 1, 2, 2, 1, 1, 2, 2, 2],
        bounds: &[(0x1b, 55), (0x2b, 51), (0x36, 49)],
        sum: 2286,
    },
    Row {
        casts: &[0xc1, 0x125, 0x395, 0x50, 0x30d, 0x149],
        days: &[2, 2, 2, 2, 2, 2],
        rates: &[2, 2, 2, 2, 2, 2, 2, 2, 2, 2],
        holds: &[1, 1, 2, 2, 1, 1, 1, 2, 2, 2],
        bounds: &[(0x19, 50), (0x25, 62), (0x3c, 76)],
        sum: 3538,
    },
    Row {
        casts: &[0x1f, 0x2, 0x10, 0xa, 0x25, 0x1],
        days: &[1, 1, 1, 1, 1, 1],
        rates: &[1, 1, 1, 1, 1, 1],
        holds: &[1, 2, 1, 2, 2, 1],
        bounds: &[(0x1, 5), (0xf, 9), (0x3b, 14)],
        sum: 551,
    },
];

// Up to three groups of seven, and newcomers for several of them. The last film has nine scenes.
static MANY: [Row; 3] = [
    Row {
        casts: &[0x47e205, 0x809d0, 0xc08c9e, 0x8c052c, 0x12e103, 0x22a726],
        days: &[1, 1, 4, 2, 4, 2],
        rates: &[
            8, 5, 2, 3, 8, 5, 3, 8, 8, 1, 2, 8, 3, 5, 0, 2, 5, 1, 0, 2, 8, 5, 2, 5,
        ],
        holds: &[
            8, 5, 2, 3, 9, 1, 3, 9, 8, 1, 2, 5, 3, 5, 9, 2, 3, 1, 2, 2, 8, 9, 1, 9,
        ],
        bounds: &[(0x1f, 521)],
        sum: 20093,
    },
    Row {
        casts: &[0x2450f2, 0x96486, 0x440899, 0x4aa83d, 0x18a504, 0x231550],
        days: &[1, 3, 2, 3, 4, 3],
        rates: &[
            0, 8, 3, 0, 8, 5, 5, 8, 8, 8, 0, 3, 0, 3, 8, 8, 5, 0, 8, 2, 3, 3, 0,
        ],
        holds: &[
            0, 8, 2, 0, 5, 5, 5, 2, 1, 8, 0, 3, 0, 3, 3, 2, 3, 9, 8, 2, 5, 9, 0,
        ],
        bounds: &[(0xf, 383), (0x37, 507)],
        sum: 19643,
    },
    Row {
        casts: &[
            0xe2b1b, 0x63a209, 0x430b09, 0x4c12f0, 0x864104, 0x21576, 0x2200a, 0xa1c008, 0x6195ec,
        ],
        days: &[3, 2, 3, 3, 1, 1, 2, 3, 2],
        rates: &[
            2, 1, 1, 2, 3, 5, 3, 5, 2, 3, 3, 3, 2, 2, 2, 5, 1, 3, 3, 3, 2, 5, 2, 1,
        ],
        holds: &[
            5, 3, 5, 5, 5, 2, 8, 5, 1, 1, 3, 8, 3, 5, 8, 3, 1, 5, 1, 5, 1, 5, 1, 1,
        ],
        bounds: &[
            (0x3f, 476),
            (0xbd, 546),
            (0xbf, 544),
            (0x197, 459),
            (0x19d, 580),
            (0x1db, 569),
        ],
        sum: 14660,
    },
];

#[test]
fn groups_take_the_newcomers_whom_they_meet(rt: HostRuntime) -> Result<(), Fail> {
    assert!(&rt; all_have_bounds(rt.alloc(), &MIXED)?);
    assert!(&rt; all_have_bounds(rt.alloc(), &LINES)?);
    Ok(())
}

#[test]
fn of_equal_scores_the_lesser_number_is_taken(rt: HostRuntime) -> Result<(), Fail> {
    assert!(&rt; all_have_bounds(rt.alloc(), &EQUALS)?);
    Ok(())
}

#[test]
fn no_group_takes_whom_an_earlier_one_took(rt: HostRuntime) -> Result<(), Fail> {
    assert!(&rt; all_have_bounds(rt.alloc(), &MANY)?);
    Ok(())
}

fn all_have_bounds(alloc: Global, rows: &[Row]) -> Result<bool, Fail> {
    for row in rows {
        if !has_bounds(alloc, row)? {
            return Ok(false);
        }
    }
    Ok(true)
}

fn has_bounds(alloc: Global, row: &Row) -> Result<bool, Fail> {
    let film = film_of(alloc, row.casts, row.days, row.rates, row.holds, &[])?;
    let tables = BoundTables::of(alloc, &film)?;
    Ok(are_bounds(&film, &tables, row.bounds, row.sum))
}

/// Tells whether the sets have these bounds, and all sets of the first six scenes have this sum.
fn are_bounds(film: &Film, tables: &BoundTables, bounds: &[(u64, u64)], sum: u64) -> bool
    requires { AreTables film.now tables.now }
{
    for (set, bound) in bounds {
        if kept_bound(film, tables, Mask(*set)) != Some(*bound) {
            return false;
        }
    }
    sum_of(film, tables) == Some(sum)
}

/// Returns the sum of the bounds of all sets of the first six scenes, or none if there are fewer scenes.
fn sum_of(film: &Film, tables: &BoundTables) -> Option<u64>
    requires { AreTables film.now tables.now }
{
    let mut sum = 0u64;
    for number in 0..64 {
        match kept_bound(film, tables, Mask(number)) {
            Some(bound) => sum = sum.saturating_add(bound),
            None => return None,
        }
    }
    Some(sum)
}
