// The bound with arrivals if thirteen actors are on location, and none, three or five are still to come. Some films are
// at the limits. Requests are tested that the bound reaches, and others. An independent program computed the bounds of
// its stages.
ghost use Rattle.strip_bound.specs.Tables.{AreTables};

use crate::cases::{film_of, kept_bound, kept_reach};
use std::alloc::Global;
use std::test::Fail;
use strip_bound::BoundTables;
use strip_film::Film;
use strip_mask::Mask;

// The stages are the plain bound, then groups of seven with at most none, one and two newcomers, then groups of ten
// likewise.
#[derive(Drop)]
struct Row {
    casts: &'static [u64],
    days: &'static [u64],
    rates: &'static [u64],
    holds: &'static [u64],
    set: u64,
    stages: [u64; 7],
    bound: u64,
}

static ROWS: [Row; 5] = [
    Row {
        casts: &[
            0x1fff, 0x840, 0x1539, 0x44d, 0x274, 0x4a0, 0x2e, 0x51, 0x119c, 0x250, 0x2a, 0xc0a,
        ],
        days: &[3, 1, 3, 1, 3, 3, 3, 4, 3, 3, 3, 2],
        rates: &[8, 1, 5, 8, 3, 3, 13, 3, 5, 3, 8, 13, 13],
        holds: &[8, 1, 5, 8, 3, 3, 13, 3, 5, 3, 8, 13, 13],
        set: 0xffe,
        stages: [746, 1318, 1318, 1318, 1332, 1332, 1332],
        bound: 1332,
    },
    Row {
        casts: &[
            0x1fff, 0x0, 0x81, 0x1498, 0x143b, 0x14a, 0x20, 0x613, 0x1408, 0x1ca4, 0x1082, 0x860,
        ],
        days: &[
            1650, 1650, 1650, 1650, 1650, 1650, 1650, 1650, 1650, 1650, 1650, 1650,
        ],
        rates: &[
            4923076924, 4923076923, 4923076923, 4923076923, 4923076923, 4923076923, 4923076923,
            4923076923, 4923076923, 4923076923, 4923076923, 4923076923, 4923076923,
        ],
        holds: &[
            4923076924, 4923076923, 4923076923, 4923076923, 4923076923, 4923076923, 4923076923,
            4923076923, 4923076923, 4923076923, 4923076923, 4923076923, 4923076923,
        ],
        set: 0xffe,
        stages: [
            316800000000000,
            601107692309850,
            601107692309850,
            601107692309850,
            592984615383600,
            592984615383600,
            592984615383600,
        ],
        bound: 601107692309850,
    },
    Row {
        casts: &[
            0x1fff, 0xa119, 0xda58, 0x1408, 0x4994, 0xcd0b, 0x848, 0x23c0, 0x7e38, 0xe501, 0xc83,
            0x8c26,
        ],
        days: &[2, 1, 4, 4, 1, 1, 3, 4, 4, 3, 1, 1],
        rates: &[2, 2, 13, 8, 13, 5, 2, 8, 2, 1, 3, 1, 1, 8, 2, 8],
        holds: &[2, 2, 13, 8, 13, 5, 2, 8, 2, 1, 3, 1, 1, 8, 2, 8],
        set: 0xffe,
        stages: [708, 997, 1041, 1105, 1035, 1097, 1133],
        bound: 1133,
    },
    Row {
        casts: &[
            0x1fff, 0xbe2, 0x8878, 0x4190, 0x20ea2, 0x18c64, 0xc04, 0x2d508, 0xb318, 0xa062,
            0xea09, 0x10500, 0x135a2,
        ],
        days: &[3, 4, 2, 2, 3, 4, 2, 2, 1, 3, 1, 1, 4],
        rates: &[1, 13, 8, 5, 13, 13, 1, 1, 8, 5, 1, 5, 13, 8, 8, 5, 8, 8],
        holds: &[1, 13, 8, 5, 13, 13, 1, 1, 8, 5, 1, 5, 13, 8, 8, 5, 8, 8],
        set: 0x1ffe,
        stages: [1245, 1774, 1864, 1948, 1881, 1936, 2018],
        bound: 2018,
    },
    Row {
        casts: &[
            0x1fff, 0x3486d, 0x316e1, 0x38060, 0x2244, 0x28519, 0x1150d, 0x1804, 0xe98a, 0x202aa,
            0x444, 0x19140, 0x41c2,
        ],
        days: &[
            1524, 1523, 1523, 1523, 1523, 1523, 1523, 1523, 1523, 1523, 1523, 1523, 1523,
        ],
        rates: &[
            3555555565, 3555555555, 3555555555, 3555555555, 3555555555, 3555555555, 3555555555,
            3555555555, 3555555555, 3555555555, 3555555555, 3555555555, 3555555555, 3555555555,
            3555555555, 3555555555, 3555555555, 3555555555,
        ],
        holds: &[
            3555555565, 3555555555, 3555555555, 3555555555, 3555555555, 3555555555, 3555555555,
            3555555555, 3555555555, 3555555555, 3555555555, 3555555555, 3555555555, 3555555555,
            3555555555, 3555555555, 3555555555, 3555555555,
        ],
        set: 0x1ffe,
        stages: [
            384472888889735,
            611907555520865,
            638983111117880,
            682304000000000,
            595662222235760,
            617322666676820,
            628152888912580,
        ],
        bound: 682304000000000,
    },
];

#[test]
fn thirteen_on_location_have_their_bound(rt: HostRuntime) -> Result<(), Fail> {
    for row in &ROWS {
        assert!(rt; has_bound(rt.alloc(), row)?);
    }
    Ok(())
}

/// Tells whether the set has this bound, and each request is reached exactly if the bound reaches it.
fn has_bound(alloc: Global, row: &Row) -> Result<bool, Fail> {
    let film = film_of(alloc, row.casts, row.days, row.rates, row.holds, &[])?;
    let tables = BoundTables::of(alloc, &film)?;
    Ok(is_reached(&film, &tables, Mask(row.set), row.stages, row.bound))
}

fn is_reached(film: &Film, tables: &BoundTables, set: Mask, stages: [u64; 7], bound: u64) -> bool
    requires { AreTables film.now tables.now }
{
    for stage in stages {
        for need in [stage, stage.saturating_add(1)] {
            match kept_reach(film, tables, set, need) {
                Some(reached) if is_far_enough(reached, need, bound) => (),
                _ => return false,
            }
        }
    }
    kept_reach(film, tables, set, 0).is_some() && kept_bound(film, tables, set) == Some(bound)
}

/// Tells whether `reached` is at most the bound, and reaches `need` exactly if the bound does.
fn is_far_enough(reached: u64, need: u64, bound: u64) -> bool {
    reached <= bound && (reached >= need) == (bound >= need)
}
