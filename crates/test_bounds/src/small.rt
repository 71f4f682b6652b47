// Bounds of small films, worked by hand; each is requested through a source of bounds.
ghost use Rattle.std.specs.Prelude.{◌≡◌};
ghost use Rattle.strip_film.specs.Film.{LiesIn};
ghost use Rattle.strip_bound.specs.Tables.{AreTables};

use crate::cases::film_of;
use std::alloc::Global;
use std::marker::{Brand, PhantomData};
use std::test::Fail;
use strip_bound::{BoundTables, Bounded, Bounds, FilmBounds, Room, plain};
use strip_film::Film;
use strip_mask::Mask;
use strip_model::Kind;

#[derive(Drop)]
struct Row {
    casts: &'static [u64],
    days: &'static [u64],
    rates: &'static [u64],
    holds: &'static [u64],
    set: u64,
    bounds: [u64; 4],
}

// The bounds are of the kinds plain, pairs, groups and arrivals, in this order.
static ROWS: [Row; 9] = [
    Row {
        casts: &[0b11, 0b01, 0b10],
        days: &[1, 1, 1],
        rates: &[1, 10],
        holds: &[1, 10],
        set: 0b110,
        bounds: [11, 12, 12, 12],
    },
    Row {
        casts: &[0b011, 0b110, 0b101],
        days: &[1, 1, 1],
        rates: &[1, 2, 3],
        holds: &[1, 2, 3],
        set: 0b111,
        bounds: [12, 12, 12, 12],
    },
    Row {
        casts: &[0b011, 0b110, 0b101],
        days: &[1, 1, 1],
        rates: &[1, 2, 3],
        holds: &[1, 2, 3],
        set: 0b110,
        bounds: [9, 10, 10, 10],
    },
    Row {
        casts: &[0b111, 0b001, 0b010, 0b100],
        days: &[1, 1, 1, 1],
        rates: &[1, 1, 1],
        holds: &[1, 1, 1],
        set: 0b1110,
        bounds: [3, 4, 6, 6],
    },
    // Scenes of several days.
    Row {
        casts: &[0b11, 0b01, 0b10],
        days: &[1, 2, 3],
        rates: &[1, 10],
        holds: &[4, 5],
        set: 0b110,
        bounds: [32, 42, 42, 42],
    },
    // Eight actors on location: four pairs, and groups of six and two, or all eight.
    Row {
        casts: &[0xff, 0x01, 0x02, 0x04, 0x08, 0x10, 0x20, 0x40, 0x80],
        days: &[1; 9],
        rates: &[1; 8],
        holds: &[1; 8],
        set: 0b111111110,
        bounds: [8, 12, 24, 36],
    },
    // Seven: three pairs and a single actor, a group of six and a single one, or all seven.
    Row {
        casts: &[0x7f, 0x01, 0x02, 0x04, 0x08, 0x10, 0x20, 0x40],
        days: &[1; 8],
        rates: &[1; 7],
        holds: &[1; 7],
        set: 0xfe,
        bounds: [7, 10, 22, 28],
    },
    // Twelve: two groups of six, or groups of ten and two.
    Row {
        casts: &[
            0xfff, 0x01, 0x02, 0x04, 0x08, 0x10, 0x20, 0x40, 0x80, 0x100, 0x200, 0x400, 0x800,
        ],
        days: &[1; 13],
        rates: &[1; 12],
        holds: &[1; 12],
        set: 0x1ffe,
        bounds: [12, 18, 42, 58],
    },
    // Thirteen: the last actor is in a group of his own, or in one of the last three.
    Row {
        casts: &[
            0x1fff, 0x01, 0x02, 0x04, 0x08, 0x10, 0x20, 0x40, 0x80, 0x100, 0x200, 0x400, 0x800,
            0x1000,
        ],
        days: &[1; 14],
        rates: &[1; 13],
        holds: &[1; 13],
        set: 0x3ffe,
        bounds: [13, 19, 43, 61],
    },
];

// All sets of the triangle, three scenes of two actors each, with hold rates of their own.
static HELD: [(u64, [u64; 4]); 8] = [
    (0b000, [0, 0, 0, 0]),
    (0b001, [3, 3, 3, 3]),
    (0b010, [5, 5, 5, 5]),
    (0b100, [4, 4, 4, 4]),
    (0b011, [8, 12, 12, 12]),
    (0b101, [7, 8, 8, 8]),
    (0b110, [9, 10, 10, 10]),
    (0b111, [12, 12, 12, 12]),
];

// All sets of the triangle, with hold rates equal to the rates.
static PAID: [(u64, [u64; 4]); 8] = [
    (0b000, [0, 0, 0, 0]),
    (0b001, [3, 3, 3, 3]),
    (0b010, [5, 5, 5, 5]),
    (0b100, [4, 4, 4, 4]),
    (0b011, [8, 9, 9, 9]),
    (0b101, [7, 9, 9, 9]),
    (0b110, [9, 10, 10, 10]),
    (0b111, [12, 12, 12, 12]),
];

/// Tells whether the sets of the triangle with these hold rates have these bounds.
fn triangle_has_bounds(
    alloc: Global,
    holds: &'static [u64],
    sets: &[(u64, [u64; 4])],
) -> Result<bool, Fail> {
    for (set, bounds) in sets {
        let row = Row {
            casts: &[0b011, 0b110, 0b101],
            days: &[1, 1, 1],
            rates: &[1, 2, 3],
            holds,
            set: *set,
            bounds: *bounds,
        };
        if !has_bounds(alloc, &row)? {
            return Ok(false);
        }
    }
    Ok(true)
}

#[test]
fn every_set_of_a_film_with_hold_rates_has_its_bounds(rt: HostRuntime) -> Result<(), Fail> {
    assert!(&rt; triangle_has_bounds(rt.alloc(), &[5, 1, 4], &HELD)?);
    Ok(())
}

#[test]
fn every_set_of_a_film_whose_hold_rates_are_the_rates_has_its_bounds(
    rt: HostRuntime,
) -> Result<(), Fail> {
    assert!(&rt; triangle_has_bounds(rt.alloc(), &[1, 2, 3], &PAID)?);
    Ok(())
}

fn all_have_bounds(alloc: Global, rows: &[Row]) -> Result<bool, Fail> {
    for row in rows {
        if !has_bounds(alloc, row)? {
            return Ok(false);
        }
    }
    Ok(true)
}

#[test]
fn bounds_are_those_worked_by_hand(rt: HostRuntime) -> Result<(), Fail> {
    assert!(&rt; all_have_bounds(rt.alloc(), &ROWS)?);
    Ok(())
}

fn has_bounds(alloc: Global, row: &Row) -> Result<bool, Fail> {
    let film = film_of(alloc, row.casts, row.days, row.rates, row.holds, &[])?;
    let tables = BoundTables::of(alloc, &film)?;
    Ok(are_kept(&film, &tables, Mask(row.set), row.bounds))
}

fn are_kept(film: &Film, tables: &BoundTables, set: Mask, bounds: [u64; 4]) -> bool
    requires { AreTables film.now tables.now }
{
    let [plain, pairs, groups, arrivals] = bounds;
    kept_plain(film, tables, set) == Some(plain)
        && kept(film, tables, Kind::Plain, set) == Some(plain)
        && kept(film, tables, Kind::Pairs, set) == Some(pairs)
        && kept(film, tables, Kind::Groups, set) == Some(groups)
        && kept(film, tables, Kind::Arrivals, set) == Some(arrivals)
}

/// A source of plain bounds that computes each by `plain`, whatever is needed. The type N names the film.
#[derive(Drop)]
struct PlainBounds<'f, N: Bounded> {
    film: &'f Film,
    tables: &'f BoundTables,
    of: PhantomData<N>,
    ghost film_is: { film.now ≡ N.film },
    ghost are_tables: { AreTables film.now tables.now },
}

impl<'f, N: Bounded> Bounds for PlainBounds<'f, N> {
    ghost use Rattle.strip_model.specs.declared.kind.Kind.TheVariants.{Plain};

    ghost film = { N.film };

    ghost kind = { Plain };

    fn film(&self) -> &Film {
        self.film
    }

    fn kind(&self) -> Kind {
        Kind::Plain
    }

    fn reach(&self, q: Mask, _need: u64, _room: &mut Room) -> u64 {
        plain(self.film, self.tables, q)
    }
}

// Returns none if the set has a number that is no scene.
fn kept_plain(film: &Film, tables: &BoundTables, set: Mask) -> Option<u64>
    requires { AreTables film.now tables.now }
{
    film.keeps_limits();
    if !set.lies_below(film.scenes() as u32) {
        return None;
    }
    Some(plain_of::<Brand>(film, tables, set))
}

fn plain_of<N: Bounded>(film: &Film, tables: &BoundTables, set: Mask) -> u64
    requires film { film.now ≡ N.film }
    requires tables { AreTables film.now tables.now }
    requires lies { LiesIn N.film set.0 }
{
    let bounds: PlainBounds<N> = PlainBounds {
        film,
        tables,
        of: PhantomData,
    };
    bounds.reach(set, 0, &mut Room::new())
}

// Returns none if the set has a number that is no scene.
fn kept(film: &Film, tables: &BoundTables, kind: Kind, set: Mask) -> Option<u64>
    requires { AreTables film.now tables.now }
{
    film.keeps_limits();
    if !set.lies_below(film.scenes() as u32) {
        return None;
    }
    Some(bound_of::<Brand>(film, tables, kind, set))
}

fn bound_of<N: Bounded>(film: &Film, tables: &BoundTables, kind: Kind, set: Mask) -> u64
    requires film { film.now ≡ N.film }
    requires kind { kind ≡ N.kind }
    requires tables { AreTables film.now tables.now }
    requires lies { LiesIn N.film set.0 }
{
    let bounds: FilmBounds<N> = FilmBounds::new(film, tables, kind);
    bounds.whole(set)
}
