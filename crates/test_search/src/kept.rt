// Films with hold rates and pairs of scenes. An independent program found their cheapest orders, from first and last
// positions.
use crate::cheapest::cheapest_order;
use crate::lists::{Lists, film_of, instance, instance_of, pairs_of, with_pairs};
use std::alloc::Global;
use std::test::Fail;
use strip_model::{Instance, Pair, is_order, keeps_pairs, pay};

/// A film, the first of its cheapest orders, and the pay of this order.
pub(crate) struct Kept {
    pub(crate) film: Lists,
    order: &'static [u8],
    pay: u64,
}

static FILMS: [Kept; 9] = [
    Kept {
        film: Lists {
            casts: &[0b011, 0b110, 0b101],
            days: &[1, 1, 1],
            rates: &[1, 2, 3],
            holds: &[1, 2, 3],
            pairs: &[],
        },
        order: &[0, 1, 2],
        pay: 13,
    },
    Kept {
        film: Lists {
            casts: &[0b011, 0b110, 0b101],
            days: &[1, 1, 1],
            rates: &[1, 2, 3],
            holds: &[5, 1, 4],
            pairs: &[],
        },
        order: &[0, 2, 1],
        pay: 13,
    },
    Kept {
        film: Lists {
            casts: &[0b011, 0b110, 0b101],
            days: &[1, 1, 1],
            rates: &[0, 0, 0],
            holds: &[1, 1, 1],
            pairs: &[],
        },
        order: &[0, 1, 2],
        pay: 1,
    },
    Kept {
        film: Lists {
            casts: &[0b011, 0b110, 0b101],
            days: &[1, 1, 1],
            rates: &[1, 2, 3],
            holds: &[1, 2, 3],
            pairs: &[(0, 1), (2, 1)],
        },
        order: &[0, 2, 1],
        pay: 14,
    },
    Kept {
        film: Lists {
            casts: &[0b11, 0b11],
            days: &[1, 2],
            rates: &[0, 10],
            holds: &[60, 1],
            pairs: &[(1, 0)],
        },
        order: &[1, 0],
        pay: 30,
    },
    Kept {
        film: Lists {
            casts: &[0b01, 0b01, 0b01],
            days: &[2, 3, 5],
            rates: &[25, 25],
            holds: &[1, 1],
            pairs: &[(2, 1)],
        },
        order: &[0, 2, 1],
        pay: 250,
    },
    Kept {
        film: Lists {
            casts: &[0b001, 0b011, 0b110],
            days: &[1, 1, 5],
            rates: &[3, 0, 0],
            holds: &[3, 60, 5],
            pairs: &[(0, 1), (2, 0)],
        },
        order: &[2, 0, 1],
        pay: 66,
    },
    Kept {
        film: Lists {
            casts: &[0b101, 0b111, 0b100, 0b010],
            days: &[1, 3, 1, 1],
            rates: &[40, 25, 10],
            holds: &[1, 0, 60],
            pairs: &[(1, 0)],
        },
        order: &[1, 0, 2, 3],
        pay: 310,
    },
    Kept {
        film: Lists {
            casts: &[0b0010, 0b1011, 0b1101, 0b0101],
            days: &[1, 1, 1, 1],
            rates: &[40, 40, 0, 3],
            holds: &[0, 40, 0, 60],
            pairs: &[(0, 1), (2, 0)],
        },
        order: &[2, 0, 1, 3],
        pay: 266,
    },
];

static MORE: [Kept; 8] = [
    Kept {
        film: Lists {
            casts: &[0b100, 0b100, 0b011, 0b001],
            days: &[3, 1, 5, 3],
            rates: &[10, 3, 3],
            holds: &[5, 20, 5],
            pairs: &[(1, 0), (1, 2), (2, 0)],
        },
        order: &[3, 1, 2, 0],
        pay: 137,
    },
    Kept {
        film: Lists {
            casts: &[0b1101, 0b1110, 0b1010, 0b1001, 0b1110],
            days: &[1, 3, 3, 1, 2],
            rates: &[3, 40, 40, 10],
            holds: &[3, 5, 5, 60],
            pairs: &[(0, 1), (2, 4)],
        },
        order: &[2, 3, 0, 1, 4],
        pay: 676,
    },
    Kept {
        film: Lists {
            casts: &[0b1110, 0b0101, 0b1000, 0b0011, 0b0110],
            days: &[3, 1, 5, 5, 2],
            rates: &[40, 10, 3, 40],
            holds: &[5, 5, 20, 40],
            pairs: &[(1, 0), (2, 0), (2, 3), (2, 4)],
        },
        order: &[2, 1, 0, 4, 3],
        pay: 743,
    },
    Kept {
        film: Lists {
            casts: &[0b11010, 0b10100, 0b01010, 0b01001, 0b00101],
            days: &[1, 5, 1, 2, 1],
            rates: &[10, 0, 10, 25, 25],
            holds: &[0, 0, 10, 0, 1],
            pairs: &[],
        },
        order: &[0, 1, 4, 2, 3],
        pay: 340,
    },
    Kept {
        film: Lists {
            casts: &[0b0010, 0b1000, 0b1001, 0b1011, 0b1100, 0b0110],
            days: &[1, 5, 3, 1, 1, 1],
            rates: &[40, 0, 0, 25],
            holds: &[40, 5, 5, 5],
            pairs: &[(0, 5), (1, 2), (2, 5)],
        },
        order: &[1, 2, 3, 0, 4, 5],
        pay: 420,
    },
    Kept {
        film: Lists {
            casts: &[0b00100, 0b01010, 0b10110, 0b10111, 0b01100, 0b01010],
            days: &[3, 2, 3, 5, 3, 5],
            rates: &[10, 0, 10, 0, 0],
            holds: &[20, 20, 60, 60, 5],
            pairs: &[(2, 1), (5, 2)],
        },
        order: &[5, 4, 2, 1, 3, 0],
        pay: 560,
    },
    Kept {
        film: Lists {
            casts: &[0b110001, 0b011010, 0b101000, 0b001101, 0b111000, 0b000100],
            days: &[1, 3, 1, 5, 2, 5],
            rates: &[0, 40, 40, 3, 0, 40],
            holds: &[1, 1, 0, 20, 0, 0],
            pairs: &[(0, 5), (3, 2), (3, 4), (3, 5), (4, 5), (5, 2)],
        },
        order: &[0, 3, 1, 4, 5, 2],
        pay: 813,
    },
    Kept {
        film: Lists {
            casts: &[0b11100, 0b01100, 0b10001, 0b11100, 0b00110, 0b00100],
            days: &[2, 2, 5, 2, 2, 3],
            rates: &[40, 10, 25, 3, 25],
            holds: &[20, 20, 5, 0, 0],
            pairs: &[],
        },
        order: &[0, 1, 3, 4, 5, 2],
        pay: 738,
    },
];

/// Returns the films. Each table is read in a function of its own, so that no proof contains both.
pub(crate) fn films() -> [&'static [Kept]; 2] {
    [first(), more()]
}

fn first() -> &'static [Kept] {
    &FILMS
}

fn more() -> &'static [Kept] {
    &MORE
}

#[test]
fn finds_the_cheapest_orders_that_keep_the_pairs(rt: HostRuntime) -> Result<(), Fail> {
    for rows in films() {
        assert!(&rt; all_are_cheapest(rt.alloc(), rows)?);
    }
    Ok(())
}

fn all_are_cheapest(alloc: Global, rows: &[Kept]) -> Result<bool, Fail> {
    for row in rows {
        if !is_cheapest(alloc, row)? {
            return Ok(false);
        }
    }
    Ok(true)
}

fn is_cheapest(alloc: Global, row: &Kept) -> Result<bool, Fail> {
    let best = cheapest_order(alloc, &film_of(alloc, &row.film)?)?;
    let inst = instance_of(alloc, &row.film)?;
    let order = widened(alloc, row.order)?;
    Ok(
        best.pay == row.pay
            && best.order.as_slice() == row.order
            && is_priced(&inst, &order, row.pay, true),
    )
}

/// Tells whether `order` is an order that pays `paid`, and that keeps the pairs if and only if `keeps` holds.
pub(crate) fn is_priced(inst: &Instance, order: &[u16], paid: u64, keeps: bool) -> bool {
    if !is_order(inst, order) {
        return false;
    }
    pay(inst, order) == paid && keeps_pairs(inst, order) == keeps
}

// Widens a film's scene numbers to an instance's.
fn widened(alloc: Global, order: &[u8]) -> Result<Vec<u16>, Fail> {
    let mut scenes = Vec::new(alloc);
    for &scene in order {
        scenes.push(scene as u16)?;
    }
    Ok(scenes)
}

// Three scenes of two actors each, one day each.
fn triangle(alloc: Global) -> Result<Instance, Fail> {
    instance(
        alloc,
        &[0b011, 0b110, 0b101],
        &[1, 1, 1],
        &[1, 2, 3],
        &[1, 2, 3],
    )
}

// Orders, their pay, and whether they keep the pairs.
static PRICED: [([u16; 3], u64, bool); 6] = [
    ([0, 1, 2], 13, false),
    ([0, 2, 1], 14, true),
    ([1, 0, 2], 15, false),
    ([1, 2, 0], 14, false),
    ([2, 0, 1], 15, true),
    ([2, 1, 0], 13, false),
];

fn all_are_priced(inst: &Instance) -> bool {
    for (order, paid, keeps) in &PRICED {
        if !is_priced(inst, order, *paid, *keeps) {
            return false;
        }
    }
    true
}

#[test]
fn prices_orders_that_keep_the_pairs_or_not(rt: HostRuntime) -> Result<(), Fail> {
    let alloc = rt.alloc();
    let inst = with_pairs(alloc, triangle(alloc)?, &[(0, 1), (2, 1)])?;
    assert!(&rt; all_are_priced(&inst));
    assert!(&rt; inst.pairs().len() == 2);
    Ok(())
}

// Lists of pairs, and whether they are valid.
static FITTING: [(&'static [(u16, u16)], bool); 9] = [
    (&[], true),
    (&[(0, 1), (2, 1)], true),
    (&[(0, 1), (1, 2), (0, 2)], true),
    (&[(0, 1), (1, 2), (2, 0)], false),
    (&[(0, 1), (1, 0)], false),
    (&[(0, 1), (0, 1)], false),
    (&[(1, 1)], false),
    (&[(0, 3)], false),
    (&[(65_535, 0)], false),
];

fn all_fit_so(alloc: Global, inst: &Instance) -> Result<bool, Fail> {
    for (pairs, fit) in &FITTING {
        if inst.fits_pairs(&pairs_of(alloc, pairs)?) != *fit {
            return Ok(false);
        }
    }
    Ok(true)
}

#[test]
fn tells_pairs_that_fit(rt: HostRuntime) -> Result<(), Fail> {
    let inst = triangle(rt.alloc())?;
    assert!(&rt; all_fit_so(rt.alloc(), &inst)?);
    Ok(())
}

// A chain of 199 pairs is valid for 200 scenes, and invalid once it is closed to a cycle.
#[test]
fn tells_a_chain_from_a_ring(rt: HostRuntime) -> Result<(), Fail> {
    let alloc = rt.alloc();
    let inst = instance(alloc, &[0; 200], &[1; 200], &[], &[])?;
    let mut pairs = Vec::new(alloc);
    for first in 0..199 {
        let then = first + 1;
        pairs.push(Pair { first, then })?;
    }
    assert!(&rt; inst.fits_pairs(&pairs));
    pairs.push(Pair {
        first: 199,
        then: 0,
    })?;
    assert!(&rt; !inst.fits_pairs(&pairs));
    Ok(())
}
