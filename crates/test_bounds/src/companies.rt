// The least pay for waiting of a group and one newcomer, over all lists of a set. An independent program tried every
// list.
use crate::values::value_of;
use std::alloc::Global;
use std::test::Fail;
use strip_io::Memory;
use strip_mask::Mask;

#[derive(Drop)]
struct Company {
    casts: &'static [u64],
    days: &'static [u64],
    holds: &'static [u64],
    set: u64,
    group: u64,
    newcomer: u64,
    least: u64,
}

static COMPANIES: [Company; 16] = [
    Company {
        casts: &[0x13, 0x12, 0x1e, 0x2, 0x5, 0x18],
        days: &[1, 3, 1, 1, 1, 2],
        holds: &[9, 1, 3, 3, 2],
        set: 0x3c,
        group: 0xd,
        newcomer: 0x2,
        least: 5,
    },
    Company {
        casts: &[0xe, 0x1d, 0x3a, 0x10, 0x6],
        days: &[3, 1, 1, 1, 2],
        holds: &[1, 0, 1, 1, 2, 9],
        set: 0x1f,
        group: 0x1b,
        newcomer: 0x4,
        least: 3,
    },
    Company {
        casts: &[0x2, 0x7, 0x11, 0x5, 0xe],
        days: &[2, 3, 1, 4, 2],
        holds: &[3, 5, 0, 2, 9],
        set: 0x1f,
        group: 0x1b,
        newcomer: 0x4,
        least: 19,
    },
    Company {
        casts: &[0xe, 0x1a, 0x9, 0x14, 0x9, 0x11],
        days: &[2, 1, 4, 3, 1, 2],
        holds: &[3, 5, 0, 1, 9],
        set: 0x3f,
        group: 0xf,
        newcomer: 0x10,
        least: 23,
    },
    Company {
        casts: &[0x3, 0xa, 0x1, 0x7, 0x6, 0x6],
        days: &[2, 4, 2, 4, 4, 2],
        holds: &[5, 2, 9, 9],
        set: 0x3f,
        group: 0xe,
        newcomer: 0x1,
        least: 36,
    },
    Company {
        casts: &[0xb, 0x10, 0x18, 0x1f, 0x1],
        days: &[3, 2, 2, 2, 4],
        holds: &[3, 0, 3, 9, 3],
        set: 0xf,
        group: 0x15,
        newcomer: 0x2,
        least: 9,
    },
    Company {
        casts: &[0x6, 0x5, 0x4, 0xf, 0x2, 0x0],
        days: &[2, 4, 3, 1, 1, 3],
        holds: &[2, 5, 5, 2],
        set: 0x1b,
        group: 0xe,
        newcomer: 0x1,
        least: 11,
    },
    Company {
        casts: &[0xb, 0x3, 0x2, 0xc, 0x5, 0x1],
        days: &[1, 3, 3, 4, 1, 3],
        holds: &[1, 2, 5, 1],
        set: 0x2f,
        group: 0xe,
        newcomer: 0x1,
        least: 11,
    },
    Company {
        casts: &[0xc, 0xf, 0x6, 0x9, 0x1, 0x1],
        days: &[3, 3, 1, 3, 4, 4],
        holds: &[9, 2, 9, 2],
        set: 0x3f,
        group: 0xe,
        newcomer: 0x1,
        least: 8,
    },
    Company {
        casts: &[0x5, 0xb, 0xc, 0xa, 0x8, 0xd],
        days: &[3, 1, 3, 1, 3, 2],
        holds: &[9, 2, 9, 2],
        set: 0x3e,
        group: 0x3,
        newcomer: 0x4,
        least: 9,
    },
    Company {
        casts: &[0x5, 0x0, 0x9, 0x8, 0xa],
        days: &[2, 2, 2, 2, 3],
        holds: &[3, 9, 3, 5],
        set: 0x1d,
        group: 0xc,
        newcomer: 0x2,
        least: 10,
    },
    Company {
        casts: &[0x3f, 0x26, 0x11, 0x1d, 0x34],
        days: &[2, 1, 1, 2, 4],
        holds: &[9, 2, 5, 0, 9, 1],
        set: 0x1b,
        group: 0x3e,
        newcomer: 0x1,
        least: 11,
    },
    Company {
        casts: &[0x37, 0x27, 0x32, 0x1e],
        days: &[1, 1, 4, 4],
        holds: &[9, 5, 2, 9, 3, 0],
        set: 0xf,
        group: 0x34,
        newcomer: 0x8,
        least: 3,
    },
    Company {
        casts: &[0x13, 0x2, 0x2, 0x25],
        days: &[1, 3, 3, 4],
        holds: &[9, 1, 1, 0, 2, 2],
        set: 0xf,
        group: 0x37,
        newcomer: 0x8,
        least: 7,
    },
    Company {
        casts: &[0x7, 0x4, 0x28, 0x18, 0x12],
        days: &[3, 3, 1, 2, 4],
        holds: &[3, 2, 5, 0, 5, 5],
        set: 0x17,
        group: 0x3e,
        newcomer: 0x1,
        least: 32,
    },
    Company {
        casts: &[0x10, 0x18, 0xb, 0x1c, 0x4],
        days: &[1, 3, 3, 2, 4],
        holds: &[1, 0, 5, 5, 5],
        set: 0x1e,
        group: 0x1b,
        newcomer: 0x4,
        least: 15,
    },
];

#[test]
fn one_newcomer_is_paid_what_the_cheapest_list_pays(rt: HostRuntime) -> Result<(), Fail> {
    for company in &COMPANIES {
        assert!(rt; has_least(rt.alloc(), company)?);
    }
    Ok(())
}

/// Tells whether the company keeps the limits and has this value.
fn has_least(alloc: Global, company: &Company) -> Result<bool, Memory> {
    let (set, group) = (Mask(company.set), Mask(company.group));
    let newcomer = Mask(company.newcomer);
    let value = value_of(
        alloc,
        company.casts,
        company.days,
        company.holds,
        set,
        group,
        newcomer,
    )?;
    Ok(value == Some(company.least))
}
