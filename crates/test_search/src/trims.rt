// Lines of films, trimmed by hand.
ghost use Rattle.std.specs.Prelude.{◌≡◌, IfOk};
ghost use Rattle.strip_bound.specs.Tables.{AreTables};
ghost use Rattle.strip_lines.specs.Lines.{AreJustified, rules_of};
ghost use Rattle.test_search.specs.Worked.{ring, triangle};

use std::alloc::Global;
use std::marker::Brand;
use std::test::Fail;
use strip_bound::{BoundTables, Bounded, FilmBounds};
use strip_film::{Film, Line};
use strip_memo::Memo;
use strip_model::Kind;
use strip_trim::trim;

fn triangle(alloc: Global) -> Result<Film, Fail>
    ensures { IfOk result (λ film. film ≡ triangle) }
{
    let casts = Vec::from_slice(alloc, &[0b0011, 0b0110, 0b0101])?;
    let days = Vec::from_slice(alloc, &[1, 1, 1])?;
    let rates = Vec::from_slice(alloc, &[1, 2, 3])?;
    let holds = Vec::from_slice(alloc, &[1, 2, 3])?;
    let film = Film::of(casts, days, rates, holds, Vec::new(alloc)).ok_or("within the limits")?;
    Ok(film)
}

fn ring(alloc: Global) -> Result<Film, Fail>
    ensures { IfOk result (λ film. film ≡ ring) }
{
    let casts = Vec::from_slice(alloc, &[0b1001, 0b0011, 0b0110, 0b1100])?;
    let days = Vec::from_slice(alloc, &[1, 1, 1, 1])?;
    let rates = Vec::from_slice(alloc, &[1, 2, 3, 4])?;
    let holds = Vec::from_slice(alloc, &[1, 2, 3, 4])?;
    let film = Film::of(casts, days, rates, holds, Vec::new(alloc)).ok_or("within the limits")?;
    Ok(film)
}

fn trimmed(alloc: Global, film: &Film, kind: Kind, lines: &[Line]) -> Result<Vec<Line>, Fail>
    requires { AreJustified (rules_of kind film.now) lines.now }
{
    let tables = BoundTables::of(alloc, film)?;
    trimmed_by::<Brand>(alloc, film, &tables, kind, lines)
}

fn trimmed_by<N: Bounded>(
    alloc: Global,
    film: &Film,
    tables: &BoundTables,
    kind: Kind,
    lines: &[Line],
) -> Result<Vec<Line>, Fail>
    requires film { film.now ≡ N.film }
    requires kind { kind ≡ N.kind }
    requires tables { AreTables film.now tables.now }
    requires lines { AreJustified (rules_of N.kind N.film) lines.now }
{
    let bounds: FilmBounds<N> = FilmBounds::new(film, tables, kind);
    let mut memo = Memo::new(alloc, &bounds)?;
    let lines = trim(alloc, &bounds, &mut memo, lines)?;
    Ok(lines)
}

// No step leads to the set of the second line, and the first line has a lesser bound than the third.
#[test]
fn a_triangle_needs_one_line(rt: HostRuntime) -> Result<(), Fail> {
    let film = triangle(rt.alloc())?;
    let lines = [
        Line { set: 7, bound: 12 },
        Line { set: 6, bound: 10 },
        Line { set: 7, bound: 13 },
    ];
    let left = trimmed(rt.alloc(), &film, Kind::Pairs, &lines)?;
    assert!(&rt; left.as_slice() == &lines[2..]);
    Ok(())
}

// The set of all scenes leads to each other set, to the last two through another set.
#[test]
fn a_ring_needs_all_lines(rt: HostRuntime) -> Result<(), Fail> {
    let film = ring(rt.alloc())?;
    let lines = [
        Line { set: 15, bound: 22 },
        Line { set: 14, bound: 17 },
        Line { set: 13, bound: 19 },
        Line { set: 11, bound: 17 },
        Line { set: 7, bound: 17 },
        Line { set: 6, bound: 9 },
        Line { set: 9, bound: 13 },
    ];
    let left = trimmed(rt.alloc(), &film, Kind::Plain, &lines)?;
    assert!(&rt; left.as_slice() == lines.as_slice());
    Ok(())
}
