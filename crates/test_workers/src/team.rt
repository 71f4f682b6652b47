// Four workers that make and raise ten thousand lines of one book. Each begins 2,500 parts, whose tasks are the empty
// path, and enlists this path in each. A book doesn't require that the parts of two passes differ.
ghost use Rattle.std.specs.Prelude.{◌≡◌, ℕ, suc, ◌+◌, ◌<◌, ◌≤◌, All, IfOk, IfSome, length, vec_len};
ghost use Rattle.strip_model.specs.declared.kind.Kind.TheVariants.{Pairs};
ghost use Rattle.strip_bound.specs.Tables.{AreTables};
ghost use Rattle.strip_book.specs.Pass.{IsPassOf, known};
ghost use Rattle.strip_book.specs.Rule.{full_weight};
ghost use Rattle.test_workers.specs.Team.{AreFreshFrom, IsNew, IsOfWholes, IsOne, IsWorker};

use crate::book::{raise_whole, triangle};
use std::alloc::{AllocError, Global};
use std::marker::Brand;
use std::test::Fail;
use std::thread;
use std::thread::Threads;
use strip_book::{Book, BookPass};
use strip_bound::{BoundTables, Bounded, Bounds, FilmBounds};
use strip_check::{Verdict, check};
use strip_film::{Film, Line, Listed, Path};
use strip_instance::read_instance;
use strip_model::Kind;
use strip_proof::{Plan, Status};

const WORKERS: u32 = 4;

const SHARE: u32 = 2500;

/// Begins a part, makes a line of the empty path, and raises it to 13. It tells whether all of this succeeded.
fn make_line<B: Bounds>(bounds: &B, book: &Book, pass: &mut BookPass, part: u32) -> bool
    requires pass { IsPassOf book.now pass.old }
    requires search { IsOfWholes B.kind B.film 2500 (known pass.old).search }
    requires part { (0 < part) × (part ≤ 2500) }
    requires fresh { AreFreshFrom part (known pass.old).entries }
    ensures pass { IsPassOf book.now pass.new }
    ensures weight { (known pass.new).weight ≡ (known pass.old).weight }
    ensures search { (known pass.new).search ≡ (known pass.old).search }
    ensures fresh { AreFreshFrom (part + 1) (known pass.new).entries }
{
    let film = bounds.film();
    film.keeps_limits();
    pass.begin(book, part);
    let empty = Path::start(film);
    let all = empty.rest();
    let bound = bounds.whole(all);
    if all.is_empty() || bound >= 14 {
        return false;
    }
    let Listed::Line(line) = pass.enlist(book, part, &empty, bound) else {
        return false;
    };
    raise_whole(bounds, book, pass, line, 13)
}

/// Makes a line in each part, and returns the pass if all succeeded.
fn make_lines<B: Bounds>(bounds: &B, book: &Book, pass: BookPass) -> Option<BookPass>
    requires worker { IsWorker B.kind B.film 2500 book.now pass }
    ensures { IfSome result (IsOne book.now) }
{
    let mut pass = pass;
    for part in 0..SHARE {
        if !make_line(bounds, book, &mut pass, part + 1) {
            return None;
        }
    }
    Some(pass)
}

/// Each pass makes its lines in a thread of its own.
fn make_beside<R: Threads + Sync, B: Bounds + Sync>(
    rt: &R,
    bounds: &B,
    book: &Book,
    passes: Vec<BookPass>,
) -> Result<Vec<Option<BookPass>>, AllocError>
    requires workers { All (IsWorker B.kind B.film 2500 book.now) passes.items }
    ensures count { IfOk result (λ all. vec_len all ≡ vec_len passes) }
    ensures each { IfOk result (λ all. All (λ one. IfSome one (IsOne book.now)) all.items) }
{
    thread::map_vec(
        rt,
        passes,
        &|pass: BookPass| -> Option<BookPass>
            requires { IsWorker B.kind B.film 2500 book.now pass }
            ensures { IfSome result (IsOne book.entry.now) }
        { make_lines(bounds, book, pass) },
    )
}

/// Returns the passes of four workers after their work, each with a desk of its own.
fn make_all<R: Threads + Sync, B: Bounds + Sync>(
    rt: &R,
    alloc: Global,
    bounds: &B,
    book: &Book,
    pass: &mut BookPass,
) -> Result<Vec<Option<BookPass>>, AllocError>
    requires pass { IsNew B.kind B.film 2500 book.now pass.old }
    requires full { (known pass.old).weight ≡ full_weight }
    ensures pass { IfOk result (λ _. IsPassOf book.now pass.new) }
    ensures weight { IfOk result (λ all. (known pass.new).weight + vec_len all ≡ full_weight) }
    ensures each { IfOk result (λ all. All (λ one. IfSome one (IsOne book.now)) all.items) }
{
    let mut passes = Vec::new(alloc);
    for desk in 0..WORKERS {
        passes.push(pass.split(book, desk))?;
    }
    make_beside(rt, bounds, book, passes)
}

/// Joins the passes of all workers, if each made its lines.
fn gather(book: &Book, pass: BookPass, passes: Vec<Option<BookPass>>) -> Option<BookPass>
    requires pass { IsPassOf book.now pass }
    requires weight { (known pass).weight + vec_len passes ≡ full_weight }
    requires each { All (λ one. IfSome one (IsOne book.now)) passes.items }
    ensures pass { IfSome result (IsPassOf book.now) }
    ensures full { IfSome result (λ pass. (known pass).weight ≡ full_weight) }
{
    let mut pass = pass;
    let mut passes = passes;
    while let Some(one) = passes.pop() {
        pass.join(book, one?);
    }
    Some(pass)
}

fn lines_of_four<R: Threads + Sync, B: Bounds + Sync>(
    rt: &R,
    alloc: Global,
    bounds: &B,
) -> Result<Vec<Line>, Fail> {
    let film = bounds.film();
    let tasks = vec![in alloc; Path::start(film); SHARE as usize]?;
    let (book, mut pass) = Book::new(alloc, film, bounds.kind(), 14, &tasks, WORKERS * SHARE)?;
    let passes = make_all(rt, alloc, bounds, &book, &mut pass)?;
    let pass = gather(&book, pass, passes).ok_or("all lines")?;
    let lines = book.into_lines(alloc, pass)?;
    Ok(lines)
}

/// Returns these lines, with bounds of pairs. A type brand names their film and kind.
fn lines_by<N: Bounded + Send + Sync, R: Threads + Sync>(
    rt: &R,
    alloc: Global,
    film: &Film,
    tables: &BoundTables,
) -> Result<Vec<Line>, Fail>
    requires film { film.now ≡ N.film }
    requires kind { Pairs ≡ N.kind }
    requires tables { AreTables film.now tables.now }
{
    let bounds: FilmBounds<N> = FilmBounds::new(film, tables, Kind::Pairs);
    lines_of_four(rt, alloc, &bounds)
}

fn are_all_raised(lines: &[Line]) -> bool {
    lines.len() == (WORKERS * SHARE) as usize
        && lines.iter().all(|line| line.set == 7 && line.bound == 13)
}

const TRIANGLE: &str = "scene,days,a,b,c\nrate,,1,2,3\ns1,1,x,x,.\ns2,1,.,x,x\ns3,1,x,.,x\n";

/// Tells whether the checker accepts a plan of the triangle with these lines. The plan has the order of the rows, which
/// costs 13.
fn is_accepted(alloc: Global, lines: Vec<Line>) -> Result<bool, Fail> {
    let inst = read_instance(alloc, TRIANGLE.as_bytes())?;
    let plan = Plan {
        status: Status::Optimal,
        kind: Kind::Pairs,
        cost: 13,
        bound: 13,
        held: lines.len() as u64,
        order: Vec::from_slice(alloc, &[0, 1, 2])?,
        lines,
    };
    let verdict = check(alloc, &inst, &plan)?;
    Ok(matches!(verdict, Verdict::Accepted))
}

#[test]
fn four_workers_make_ten_thousand_lines(rt: HostRuntime) -> Result<(), Fail> {
    let alloc = rt.alloc();
    let film = triangle(alloc)?;
    let tables = BoundTables::of(alloc, &film)?;
    let lines = lines_by::<Brand, _>(&rt, alloc, &film, &tables)?;
    assert!(&rt; are_all_raised(lines.as_slice()));
    assert!(&rt; is_accepted(alloc, lines)?);
    Ok(())
}
