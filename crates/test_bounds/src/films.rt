// Values of small films, and of films at the limits, which an independent program computed from the definition.
use crate::values::value_of;
use std::alloc::Global;
use std::test::Fail;
use strip_io::Memory;
use strip_mask::Mask;

#[derive(Drop)]
struct Film {
    casts: &'static [u64],
    days: &'static [u64],
    holds: &'static [u64],
    set: u64,
    group: u64,
    newcomers: u64,
    value: u64,
}

static FIRST: [Film; 8] = [
    Film {
        casts: &[0x25, 0x2e, 0x14, 0x14, 0x54, 0x16, 0x13, 0x4],
        days: &[1, 1, 2, 4, 3, 4, 2, 1],
        holds: &[2, 6, 5, 8, 2, 2, 0],
        set: 0x6f,
        group: 0x72,
        newcomers: 0x5,
        value: 14,
    },
    Film {
        casts: &[0x3b, 0x3e, 0x2, 0x38, 0x4, 0x14, 0x1e, 0x39, 0x33],
        days: &[3, 1, 1, 4, 1, 2, 3, 3, 4],
        holds: &[3, 5, 2, 0, 2, 6],
        set: 0x1ff,
        group: 0x1c,
        newcomers: 0x3,
        value: 4,
    },
    Film {
        casts: &[0x20, 0x10, 0x0, 0x6],
        days: &[2, 3, 2, 4],
        holds: &[5, 0, 2, 5, 1, 5],
        set: 0xf,
        group: 0x38,
        newcomers: 0x0,
        value: 2,
    },
    Film {
        casts: &[0x48, 0x1a, 0xa, 0x4e, 0x24, 0x69, 0x35, 0x20, 0x2f],
        days: &[2, 1, 4, 1, 4, 2, 1, 2, 1],
        holds: &[1, 9, 1, 2, 2, 2, 0],
        set: 0x15f,
        group: 0x13,
        newcomers: 0x24,
        value: 18,
    },
    Film {
        casts: &[0x15, 0x20, 0x1d, 0x19, 0x1e, 0x14, 0xd],
        days: &[3, 3, 4, 2, 4, 1, 1],
        holds: &[3, 5, 0, 3, 3, 0, 3],
        set: 0x75,
        group: 0x4b,
        newcomers: 0x20,
        value: 12,
    },
    Film {
        casts: &[0x12, 0x1, 0x14, 0x2d, 0x1f, 0x0, 0x37],
        days: &[1, 4, 1, 4, 2, 2, 1],
        holds: &[2, 2, 3, 2, 2, 5],
        set: 0x7e,
        group: 0x3a,
        newcomers: 0x5,
        value: 20,
    },
    Film {
        casts: &[0xe, 0x1c, 0x18, 0x8, 0x8, 0x10, 0x1b],
        days: &[1, 3, 1, 4, 4, 4, 3],
        holds: &[1, 2, 1, 2, 5],
        set: 0x7f,
        group: 0x19,
        newcomers: 0x6,
        value: 13,
    },
    Film {
        casts: &[0x2, 0xa8, 0x34, 0x1, 0x28, 0x7],
        days: &[1, 3, 1, 1, 3, 3],
        holds: &[1, 1, 0, 20, 3, 2, 3, 2],
        set: 0x3f,
        group: 0x16,
        newcomers: 0x0,
        value: 1,
    },
];

static SECOND: [Film; 8] = [
    Film {
        casts: &[0xc, 0x22, 0x20],
        days: &[1, 1, 3],
        holds: &[2, 18, 0, 3, 5, 2, 2],
        set: 0x7,
        group: 0x3b,
        newcomers: 0x0,
        value: 5,
    },
    Film {
        casts: &[0x1c, 0x3, 0x1e, 0x1a, 0x1d, 0x1],
        days: &[4, 4, 1, 4, 1, 4],
        holds: &[3, 1, 2, 5, 4],
        set: 0x3f,
        group: 0x7,
        newcomers: 0x10,
        value: 25,
    },
    Film {
        casts: &[0x1e, 0x15, 0x6c, 0x75, 0x25],
        days: &[2, 1, 3, 3, 3],
        holds: &[5, 1, 0, 5, 3, 5, 2],
        set: 0x1e,
        group: 0x63,
        newcomers: 0x10,
        value: 13,
    },
    Film {
        casts: &[0x2, 0x2d, 0x92, 0x81],
        days: &[3, 2, 1, 1],
        holds: &[0, 16, 6, 3, 5, 3, 0, 1],
        set: 0xf,
        group: 0x5c,
        newcomers: 0x0,
        value: 9,
    },
    Film {
        casts: &[0x18, 0x0, 0x10, 0x9, 0xa, 0xc, 0x9, 0x2],
        days: &[4, 1, 1, 4, 3, 2, 1, 1],
        holds: &[3, 2, 3, 2, 3],
        set: 0xdf,
        group: 0x1a,
        newcomers: 0x1,
        value: 14,
    },
    Film {
        casts: &[0x14, 0xf5, 0x5d, 0xac, 0xb9, 0x6c, 0xc3],
        days: &[4, 2, 4, 3, 2, 4, 4],
        holds: &[0, 0, 3, 0, 3, 2, 5, 2],
        set: 0x6f,
        group: 0x45,
        newcomers: 0x10,
        value: 12,
    },
    Film {
        casts: &[0x2a, 0x2a, 0x28, 0x1b, 0x23, 0x2c],
        days: &[4, 2, 2, 1, 2, 3],
        holds: &[1, 3, 2, 1, 1, 1],
        set: 0x3f,
        group: 0xd,
        newcomers: 0x0,
        value: 5,
    },
    Film {
        casts: &[0x0, 0x2, 0x34, 0x4, 0x20, 0x4, 0x14],
        days: &[1, 2, 3, 3, 4, 1, 4],
        holds: &[0, 2, 3, 0, 0, 2],
        set: 0x77,
        group: 0x23,
        newcomers: 0x10,
        value: 4,
    },
];

static THIRD: [Film; 8] = [
    Film {
        casts: &[0x2, 0x12, 0x11, 0x1b],
        days: &[4, 2, 1, 1],
        holds: &[3, 5, 0, 3, 0],
        set: 0xe,
        group: 0x1c,
        newcomers: 0x3,
        value: 3,
    },
    Film {
        casts: &[0x12, 0x8, 0x29, 0x12, 0x1f, 0x12, 0x18],
        days: &[2, 1, 4, 2, 1, 2, 3],
        holds: &[5, 5, 1, 5, 2, 4],
        set: 0x5d,
        group: 0x13,
        newcomers: 0x24,
        value: 28,
    },
    Film {
        casts: &[0x1d, 0x27, 0x60, 0x0, 0x54, 0x1b, 0x5, 0x59, 0x11],
        days: &[4, 2, 1, 3, 1, 4, 1, 4, 4],
        holds: &[2, 8, 0, 5, 3, 3, 1],
        set: 0x15f,
        group: 0x4e,
        newcomers: 0x20,
        value: 21,
    },
    Film {
        casts: &[0x1f, 0x18, 0x6, 0xf, 0x17, 0x1d, 0x14, 0xc, 0x1a],
        days: &[2, 3, 1, 2, 3, 1, 3, 2, 3],
        holds: &[3, 6, 19, 1, 1],
        set: 0x1ff,
        group: 0x13,
        newcomers: 0xc,
        value: 24,
    },
    Film {
        casts: &[0x80, 0x2c, 0x8d, 0x42, 0xac, 0x9b],
        days: &[4, 1, 1, 4, 4, 2],
        holds: &[0, 1, 2, 11, 5, 11, 17, 1],
        set: 0x2f,
        group: 0xa3,
        newcomers: 0x10,
        value: 6,
    },
    Film {
        casts: &[0x29, 0xdc, 0x73, 0x64, 0x43, 0x28],
        days: &[1, 4, 2, 2, 4, 3],
        holds: &[13, 1, 2, 5, 2, 1, 0, 14],
        set: 0x1f,
        group: 0xe4,
        newcomers: 0x3,
        value: 4,
    },
    Film {
        casts: &[0x0, 0x0, 0x0, 0x1, 0x10, 0x9, 0x1, 0x10, 0x5],
        days: &[2, 4, 4, 2, 1, 2, 4, 1, 2],
        holds: &[0, 0, 19, 10, 18],
        set: 0x1ff,
        group: 0xe,
        newcomers: 0x10,
        value: 20,
    },
    Film {
        casts: &[0x80, 0x58, 0x30, 0x26, 0x0, 0x30, 0x60, 0x84],
        days: &[4, 3, 3, 2, 3, 3, 3, 2],
        holds: &[2, 3, 5, 3, 2, 0, 5, 1],
        set: 0xfd,
        group: 0x32,
        newcomers: 0x44,
        value: 8,
    },
];

static FOURTH: [Film; 8] = [
    Film {
        casts: &[0x12, 0x7c, 0x41, 0x30, 0x8, 0x3, 0x24, 0x0],
        days: &[1, 1, 4, 3, 3, 1, 4, 3],
        holds: &[14, 3, 0, 2, 3, 5, 2],
        set: 0x1e,
        group: 0x4f,
        newcomers: 0x10,
        value: 14,
    },
    Film {
        casts: &[0xe, 0x79, 0x39, 0x54, 0x12, 0x8, 0x7e, 0x18],
        days: &[4, 1, 1, 1, 3, 2, 3, 1],
        holds: &[2, 5, 1, 5, 3, 0, 0],
        set: 0xff,
        group: 0x58,
        newcomers: 0x20,
        value: 18,
    },
    Film {
        casts: &[0x23, 0x4, 0x14, 0x45, 0x42, 0x4f],
        days: &[2, 3, 1, 2, 3, 3],
        holds: &[1, 17, 10, 1, 0, 11, 5],
        set: 0x3f,
        group: 0x56,
        newcomers: 0x0,
        value: 60,
    },
    Film {
        casts: &[0xa, 0xb, 0x13, 0x14, 0x7, 0x27],
        days: &[4, 3, 4, 4, 4, 1],
        holds: &[5, 3, 0, 3, 5, 0],
        set: 0x3f,
        group: 0x19,
        newcomers: 0x0,
        value: 59,
    },
    Film {
        casts: &[0x6, 0x16, 0x10, 0x14, 0x22, 0x3, 0x35],
        days: &[3, 2, 3, 4, 3, 3, 1],
        holds: &[19, 1, 5, 1, 2, 3],
        set: 0x7f,
        group: 0x2c,
        newcomers: 0x10,
        value: 21,
    },
    Film {
        casts: &[0x4e, 0x54, 0x0, 0x41, 0x16, 0x16, 0x6e, 0x75, 0x75],
        days: &[1, 2, 2, 4, 3, 2, 1, 2, 3],
        holds: &[3, 1, 5, 16, 3, 0, 8],
        set: 0x1ee,
        group: 0x63,
        newcomers: 0x18,
        value: 14,
    },
    Film {
        casts: &[0x1c, 0x36, 0xe, 0x18, 0x2d, 0x35],
        days: &[4, 4, 3, 4, 3, 1],
        holds: &[1, 13, 1, 3, 12, 1],
        set: 0x2f,
        group: 0x16,
        newcomers: 0x9,
        value: 39,
    },
    Film {
        casts: &[0x84, 0x1, 0xa9],
        days: &[2, 2, 2],
        holds: &[3, 5, 3, 0, 13, 3, 3, 18],
        set: 0x7,
        group: 0xf0,
        newcomers: 0x5,
        value: 6,
    },
];

static FIFTH: [Film; 8] = [
    Film {
        casts: &[0x34, 0x20, 0xc, 0x1, 0x1a],
        days: &[3, 3, 4, 1, 4],
        holds: &[5, 3, 0, 13, 2, 1],
        set: 0x1f,
        group: 0x2e,
        newcomers: 0x11,
        value: 16,
    },
    Film {
        casts: &[0x74, 0x51, 0x71, 0x2d, 0x3b, 0x29, 0x7a, 0x1d],
        days: &[3, 1, 4, 2, 4, 1, 4, 4],
        holds: &[2, 16, 5, 3, 5, 5, 2],
        set: 0xcd,
        group: 0x57,
        newcomers: 0x8,
        value: 56,
    },
    Film {
        casts: &[0x37, 0x3, 0xc, 0x36, 0x9, 0x29, 0x3c],
        days: &[1, 4, 4, 1, 3, 1, 3],
        holds: &[5, 3, 5, 1, 3, 5],
        set: 0x3b,
        group: 0x3a,
        newcomers: 0x5,
        value: 9,
    },
    Film {
        casts: &[0x0, 0x8, 0x0, 0x0],
        days: &[2, 4, 1, 3],
        holds: &[5, 16, 3, 1, 5],
        set: 0xf,
        group: 0x1c,
        newcomers: 0x0,
        value: 0,
    },
    Film {
        casts: &[0x12, 0x8, 0x5, 0x1e, 0x0, 0x1a],
        days: &[1, 2, 2, 2, 2, 3],
        holds: &[5, 0, 3, 3, 0],
        set: 0x3f,
        group: 0x1c,
        newcomers: 0x0,
        value: 6,
    },
    Film {
        casts: &[0x2, 0xa3, 0x8a, 0x2b, 0x11, 0x30, 0xcc, 0x81, 0x64],
        days: &[2, 2, 4, 3, 4, 4, 1, 1, 4],
        holds: &[0, 2, 1, 5, 8, 1, 3, 3],
        set: 0x1fd,
        group: 0x8c,
        newcomers: 0x42,
        value: 32,
    },
    Film {
        casts: &[0x21, 0x20, 0x4, 0x10, 0x0, 0x2, 0x1, 0x2, 0x4],
        days: &[3, 4, 4, 3, 1, 2, 2, 3, 3],
        holds: &[3, 1, 0, 5, 1, 2],
        set: 0x1fb,
        group: 0xf,
        newcomers: 0x20,
        value: 9,
    },
    Film {
        casts: &[0x8e, 0x8, 0x4c, 0x34, 0xdb],
        days: &[2, 2, 1, 1, 2],
        holds: &[12, 0, 13, 2, 0, 9, 2, 3],
        set: 0x1f,
        group: 0x46,
        newcomers: 0x20,
        value: 6,
    },
];

static SIXTH: [Film; 8] = [
    Film {
        casts: &[0x0, 0x1a, 0x0, 0x0, 0x2, 0x0, 0x10, 0x5],
        days: &[1, 1, 4, 4, 4, 3, 1, 3],
        holds: &[5, 3, 0, 3, 5],
        set: 0xff,
        group: 0x1a,
        newcomers: 0x0,
        value: 3,
    },
    Film {
        casts: &[0x5, 0x1, 0x2, 0x8, 0x0, 0x28, 0x26, 0x11, 0x20],
        days: &[3, 1, 1, 2, 1, 2, 3, 1, 4],
        holds: &[1, 7, 5, 2, 12, 1, 3],
        set: 0x1ff,
        group: 0xf,
        newcomers: 0x60,
        value: 34,
    },
    Film {
        casts: &[0x2, 0x14, 0x0, 0x10, 0x8],
        days: &[3, 3, 3, 2, 3],
        holds: &[3, 14, 5, 2, 3, 16],
        set: 0x1f,
        group: 0x33,
        newcomers: 0x0,
        value: 9,
    },
    Film {
        casts: &[0x26, 0xf, 0x22, 0x8, 0x11, 0x50, 0x6a, 0x2a, 0x10],
        days: &[3, 3, 2, 4, 2, 1, 2, 2, 1],
        holds: &[0, 5, 3, 0, 0, 5, 5],
        set: 0x1f7,
        group: 0x3c,
        newcomers: 0x0,
        value: 15,
    },
    Film {
        casts: &[0x71, 0x34, 0xbf, 0x66, 0xd4, 0x44, 0x6f],
        days: &[2, 2, 3, 3, 1, 1, 4],
        holds: &[5, 3, 2, 2, 11, 0, 5, 5],
        set: 0x7f,
        group: 0x39,
        newcomers: 0x80,
        value: 25,
    },
    Film {
        casts: &[0x3e, 0x38, 0x67, 0x47, 0x58, 0x23, 0x5a],
        days: &[2, 2, 2, 2, 1, 2, 2],
        holds: &[3, 0, 3, 2, 3, 3, 1],
        set: 0x7f,
        group: 0x2a,
        newcomers: 0x40,
        value: 8,
    },
    Film {
        casts: &[0xd0, 0x80, 0x2, 0x2, 0x47, 0x10, 0x6, 0x20],
        days: &[2, 2, 2, 4, 4, 1, 2, 1],
        holds: &[6, 5, 17, 9, 2, 3, 2, 2],
        set: 0xdf,
        group: 0xd2,
        newcomers: 0x0,
        value: 24,
    },
    Film {
        casts: &[0x29, 0x8, 0x28, 0x32, 0x19, 0x2d, 0x30, 0x37],
        days: &[2, 3, 3, 3, 3, 1, 3, 2],
        holds: &[2, 2, 1, 5, 0, 5],
        set: 0xff,
        group: 0x16,
        newcomers: 0x0,
        value: 2,
    },
];

// 19,800 days, hold rates of 64,000,000,000, ten in the group and two newcomers.
static LARGEST: [Film; 2] = [
    Film {
        casts: &[
            0x840, 0xa72, 0x136, 0x3a1, 0xa01, 0x5c4, 0x440, 0xe01, 0x8c, 0x425, 0x805, 0x302,
            0x100, 0x51,
        ],
        days: &[
            1418, 1414, 1414, 1414, 1414, 1414, 1414, 1414, 1414, 1414, 1414, 1414, 1414, 1414,
        ],
        holds: &[
            5333333337, 5333333333, 5333333333, 5333333333, 5333333333, 5333333333, 5333333333,
            5333333333, 5333333333, 5333333333, 5333333333, 5333333333,
        ],
        set: 0x3fff,
        group: 0x3ff,
        newcomers: 0xc00,
        value: 377088000004712,
    },
    Film {
        casts: &[
            0x494, 0x28, 0x421, 0x292, 0x836, 0x892, 0x210, 0x20, 0x15, 0x480, 0x831, 0x826, 0x2b0,
            0x423, 0x820, 0x10, 0x6c2, 0x44,
        ],
        days: &[
            1100, 1100, 1100, 1100, 1100, 1100, 1100, 1100, 1100, 1100, 1100, 1100, 1100, 1100,
            1100, 1100, 1100, 1100,
        ],
        holds: &[
            5333333337, 5333333333, 5333333333, 5333333333, 5333333333, 5333333333, 5333333333,
            5333333333, 5333333333, 5333333333, 5333333333, 5333333333,
        ],
        set: 0x3ffff,
        group: 0x3ff,
        newcomers: 0xc00,
        value: 328533333361200,
    },
];

fn have_values(alloc: Global, films: &[Film]) -> Result<bool, Memory> {
    for film in films {
        if !has_value(alloc, film)? {
            return Ok(false);
        }
    }
    Ok(true)
}

#[test]
fn small_films_have_their_values(rt: HostRuntime) -> Result<(), Fail> {
    assert!(&rt; have_values(rt.alloc(), &FIRST)?);
    assert!(&rt; have_values(rt.alloc(), &SECOND)?);
    Ok(())
}

#[test]
fn more_films_have_their_values(rt: HostRuntime) -> Result<(), Fail> {
    assert!(&rt; have_values(rt.alloc(), &THIRD)?);
    assert!(&rt; have_values(rt.alloc(), &FOURTH)?);
    Ok(())
}

#[test]
fn yet_more_films_have_their_values(rt: HostRuntime) -> Result<(), Fail> {
    assert!(&rt; have_values(rt.alloc(), &FIFTH)?);
    assert!(&rt; have_values(rt.alloc(), &SIXTH)?);
    Ok(())
}

#[test]
fn films_at_the_limits_have_their_values(rt: HostRuntime) -> Result<(), Fail> {
    assert!(&rt; have_values(rt.alloc(), &LARGEST)?);
    Ok(())
}

/// Tells whether the film keeps the limits and its group and newcomers have this value.
fn has_value(alloc: Global, film: &Film) -> Result<bool, Memory> {
    let (set, group, newcomers) = (Mask(film.set), Mask(film.group), Mask(film.newcomers));
    let value = value_of(
        alloc, film.casts, film.days, film.holds, set, group, newcomers,
    )?;
    Ok(value == Some(film.value))
}
