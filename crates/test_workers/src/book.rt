// The book (shared list of lines) of the triangle: a film of three scenes and three actors, with two actors in each
// scene. Bounds are of pairs. Its orders cost 13 to 15. The bound of all scenes is 12, and each first step plus the
// bound of the rest is 13. All numbers are worked by hand.
ghost use Rattle.std.specs.Prelude.{◌≡◌, ℕ, ◌+◌, ◌<◌, ◌≤◌, true, Some, IfOk, IfSome, IsTrue, length};
ghost use Rattle.strip_mask.specs.Set.{has, without};
ghost use Rattle.strip_model.specs.declared.kind.Kind.TheVariants.{Pairs};
ghost use Rattle.strip_film.specs.Film.{LiesIn, all_scenes};
ghost use Rattle.strip_film.specs.Shoot.{step_cost};
ghost use Rattle.strip_bound.specs.Bounds.{bound};
ghost use Rattle.strip_bound.specs.Tables.{AreTables};
ghost use Rattle.strip_rule.specs.Rule.{open_firsts};
ghost use Rattle.strip_lines.specs.Lines.{line_at};
ghost use Rattle.strip_hand.specs.Hand.{Knows, no_path_yet};
ghost use Rattle.strip_hand.specs.Search.{GoesBy, depth_of};
ghost use Rattle.strip_book.specs.Pass.{IsPassOf, known, table_of};
ghost use Rattle.strip_book.specs.View.{record_at};

use crate::least::{film_of, task_of_two};
use std::alloc::Global;
use std::marker::Brand;
use std::sync::Wait;
use std::test::Fail;
use strip_book::{Book, BookPass};
use strip_bound::{BoundTables, Bounded, Bounds, FilmBounds};
use strip_film::{Film, Known, Line, Listed, Noted, Path, Probe, ready, step};
use strip_io::Memory;
use strip_model::Kind;
use strip_rule::open_firsts;
use strip_stripes::{Named, Stripes};

pub(crate) fn triangle(alloc: Global) -> Result<Film, Fail> {
    film_of(alloc, &[0b011, 0b110, 0b101], &[1, 1, 1], &[1, 2, 3], &[])
}

/// The results of enlisting two paths, and the static bounds of their remaining sets.
#[derive(Debug, Drop)]
struct Enlisted {
    line: u32,
    bound: u64,
    then: Listed,
    later: u64,
}

impl Enlisted {
    fn are_as_worked(&self) -> bool {
        self.line == 0
            && self.bound == 12
            && self.then == (Listed::Spent { lines: 1 })
            && self.later == 10
    }
}

/// Enlists the empty path in the front, and then the path of scene `first`. It returns none if either isn't allowed, or
/// the empty path gets no line.
fn enlist_two<B: Bounds>(
    bounds: &B,
    book: &Book,
    pass: &mut BookPass,
    first: u32,
) -> Option<Enlisted>
    requires pass { IsPassOf book.now pass.old }
    requires goes_by { GoesBy B.kind B.film (known pass.old).search }
    requires start { (known pass.old).search.start ≡ 14 }
    requires deep { 2 ≤ depth_of (known pass.old).search }
    requires stands { record_at 0 (known pass.old).entries ≡ Some no_path_yet }
    ensures pass { IsPassOf book.now pass.new }
    ensures weight { (known pass.new).weight ≡ (known pass.old).weight }
    ensures search { (known pass.new).search ≡ (known pass.old).search }
    ensures there { IfSome result (λ two. two.line < length (known pass.new).lines) }
    ensures made { IfSome result (λ two. (line_at (known pass.new).lines two.line).set ≡ all_scenes B.film) }
{
    let film = bounds.film();
    film.keeps_limits();
    let empty = Path::start(film);
    let all = empty.rest();
    let bound = bounds.whole(all);
    if all.is_empty() || bound >= 14 || first >= 64 {
        return None;
    }
    let firsts = open_firsts(film, all);
    if !firsts.has(first) || !ready(film, all).has(first) {
        return None;
    }
    let Listed::Line(line) = pass.enlist(book, 0, &empty, bound) else {
        return None;
    };
    let path = empty.extend(film, first);
    let rest = path.rest();
    let later = bounds.whole(rest);
    if rest.is_empty() || path.paid() >= 14 || later >= 14 - path.paid() {
        return None;
    }
    let then = pass.enlist(book, 0, &path, later);
    Some(Enlisted {
        line,
        bound,
        then,
        later,
    })
}

/// Tells whether the step of each open first of all scenes, plus the bound of the rest, reaches the number.
pub(crate) fn each_first_reaches<B: Bounds>(bounds: &B, number: u64) -> bool
    ensures { IsTrue result → (scene : ℕ) → has (open_firsts B.film (all_scenes B.film)) scene
        ≡ true
        → number ≤ step_cost B.film (all_scenes B.film) scene
        + bound B.kind B.film (without (all_scenes B.film) scene) }
{
    let film = bounds.film();
    film.keeps_limits();
    let all = film.all();
    for scene in open_firsts(film, all).iter() {
        let rest = bounds.whole(all.without(scene));
        if number.saturating_sub(step(film, all, scene)) > rest {
            return false;
        }
    }
    true
}

/// Raises the line of all scenes to the number, if each first step justifies that.
pub(crate) fn raise_whole<B: Bounds>(
    bounds: &B,
    book: &Book,
    pass: &mut BookPass,
    line: u32,
    number: u64,
) -> bool
    requires pass { IsPassOf book.now pass.old }
    requires goes_by { GoesBy B.kind B.film (known pass.old).search }
    requires there { line < length (known pass.old).lines }
    requires made { (line_at (known pass.old).lines line).set ≡ all_scenes B.film }
    ensures pass { IsPassOf book.now pass.new }
    ensures weight { (known pass.new).weight ≡ (known pass.old).weight }
    ensures search { (known pass.new).search ≡ (known pass.old).search }
    ensures entries { (known pass.new).entries ≡ (known pass.old).entries }
    ensures knows { IsTrue result → Knows (known pass.new).lines
        (record { line = line; set = all_scenes B.film; bound = number }) }
{
    if bounds.film().all().is_empty() || !each_first_reaches(bounds, number) {
        return false;
    }
    pass.raise(book, line, number);
    true
}

/// Tells whether a worker's note of the line of all scenes is new in a table of 64 entries. Another worker has to find
/// it by its set, and nothing by another set.
fn is_found<R: Wait, N: Named>(
    rt: &R,
    alloc: Global,
    book: &Book,
    pass: &mut BookPass,
    line: &Known,
) -> Result<bool, Memory>
    requires named { table_of book.now ≡ N.table }
    requires pass { IsPassOf book.now pass.old }
    requires weight { 2 ≤ (known pass.old).weight }
    requires knows { Knows (known pass.old).lines line.now }
    ensures pass { IfOk result (λ _. IsPassOf book.now pass.new) }
    ensures weight { IfOk result (λ _. (known pass.new).weight ≡ (known pass.old).weight) }
{
    let stripes: Stripes<N> = Stripes::new(alloc, book, pass, 64)?;
    let noted = stripes.note(rt, book, pass, line);
    let mut other = pass.split(book, 1);
    let same = stripes.probe(rt, book, &mut other, 7);
    let none = stripes.probe(rt, book, &mut other, 6);
    pass.join(book, other);
    let found = Known {
        line: 0,
        set: 7,
        bound: 13,
    };
    Ok(noted == Noted::Fresh && same == Probe::Hit(found) && none == Probe::Miss)
}

/// Returns the lines of a book with room for one line and a task of two scenes, after two paths of the front are
/// enlisted. The first path's line is raised to 13, and another worker finds it; for the second path the line budget is
/// used up.
fn lines_of_one<R: Wait, B: Bounds>(rt: &R, alloc: Global, bounds: &B) -> Result<Vec<Line>, Fail> {
    let film = bounds.film();
    let task = task_of_two(film).ok_or("a task")?;
    let (book, mut pass) = Book::new(alloc, film, bounds.kind(), 14, &[task], 1)?;
    pass.begin(&book, 0);
    let two = enlist_two(bounds, &book, &mut pass, 0).ok_or("a candidate")?;
    if !two.are_as_worked() {
        return Err("one line".into());
    }
    if !raise_whole(bounds, &book, &mut pass, two.line, 13) {
        return Err("each first step reaches 13".into());
    }
    let line = Known {
        line: two.line,
        set: film.all().0,
        bound: 13,
    };
    if !is_found::<R, Brand>(rt, alloc, &book, &mut pass, &line)? {
        return Err("the line is found".into());
    }
    let lines = book.into_lines(alloc, pass)?;
    Ok(lines)
}

/// Returns these lines, with bounds of pairs. A type brand names their film and kind.
fn lines_by<N: Bounded, R: Wait>(
    rt: &R,
    alloc: Global,
    film: &Film,
    tables: &BoundTables,
) -> Result<Vec<Line>, Fail>
    requires film { film.now ≡ N.film }
    requires kind { Pairs ≡ N.kind }
    requires tables { AreTables film.now tables.now }
{
    let bounds: FilmBounds<N> = FilmBounds::new(film, tables, Kind::Pairs);
    lines_of_one(rt, alloc, &bounds)
}

#[test]
fn a_book_of_one_line(rt: HostRuntime) -> Result<(), Fail> {
    let alloc = rt.alloc();
    let film = triangle(alloc)?;
    let tables = BoundTables::of(alloc, &film)?;
    let lines = lines_by::<Brand, _>(&rt, alloc, &film, &tables)?;
    assert!(&rt; lines.as_slice() == [Line { set: 7, bound: 13 }].as_slice());
    Ok(())
}
