// Two workers' hubs (hands on the shared state): the second finds the line of all scenes and the least cost of the
// first. Each first step justifies 60. The initial path pays 70, and the other path 60.
ghost use Rattle.std.specs.Prelude.{◌≡◌, ◌≤◌, ℕ, suc, None, IfOk};
ghost use Rattle.strip_model.specs.declared.kind.Kind.TheVariants.{Pairs};
ghost use Rattle.strip_film.specs.Film.{all_scenes};
ghost use Rattle.strip_film.specs.Path.{IsComplete};
ghost use Rattle.strip_film.specs.Shown.{cursor_data, path_data};
ghost use Rattle.strip_bound.specs.Tables.{AreTables};
ghost use Rattle.strip_hand.specs.Calls.{StandsAt};
ghost use Rattle.strip_hand.specs.Hand.{Knows};
ghost use Rattle.strip_hand.specs.Search.{GoesBy, depth_of};
ghost use Rattle.strip_book.specs.Pass.{known, table_of};
ghost use Rattle.strip_crew.specs.declared.source.Source.TheVariants.{Counter};
ghost use Rattle.strip_crew.specs.Crew.{ArePassesOf, Weigh};
ghost use Rattle.test_workers.specs.Hubs.{HasWhole};

use crate::book::each_first_reaches;
use crate::least::{film_of, path, task_of_two};
use std::alloc::Global;
use std::marker::Brand;
use std::sync::Wait;
use std::test::Fail;
use strip_book::Book;
use strip_bound::{BoundTables, Bounded, Bounds, FilmBounds};
use strip_crew::{Hub, HubParts, Source};
use strip_film::{Cursor, Film, Known, Listed, Noted, Path, Probe};
use strip_hand::Hand;
use strip_least::Least;
use strip_model::Kind;
use strip_stripes::{Named, Stripes};

/// Makes a film of two actors who work alone and then together, at 10 and 20 a day, also for waiting.
fn meeting(alloc: Global) -> Result<Film, Fail> {
    film_of(alloc, &[0b01, 0b10, 0b11], &[1, 1, 1], &[10, 20], &[])
}

/// The replies to the first worker's note and offer; the second worker's entry of all scenes, and the least costs it is
/// told before and after the offer.
#[derive(Debug, Drop)]
struct Told {
    noted: Noted,
    probed: Probe,
    before: u64,
    offered: u64,
    behind: u64,
}

impl Told {
    fn is_as_worked(&self) -> bool {
        matches!(self.noted, Noted::Fresh)
            && matches!(
                self.probed,
                Probe::Hit(Known {
                    line: 0,
                    set: 7,
                    bound: 60
                })
            )
            && self.before == 70
            && self.offered == 60
            && self.behind == 60
    }
}

/// Claims the front.
fn claim_front<H: Hand>(hand: &mut H) -> Result<Cursor, Fail>
    requires { H.is_sound hand.old }
    ensures sound { H.is_sound hand.new }
    ensures search { IfOk result (λ _. (H.shows hand.new).search ≡ (H.shows hand.old).search) }
    ensures front { IfOk result (λ cursor. cursor_data cursor ≡ record { task = 0; last = None }) }
    ensures stands { IfOk result (λ cursor. StandsAt (H.shows hand.new) (cursor_data cursor)) }
{
    let Some(part) = hand.claim() else {
        return Err("a part that is left".into());
    };
    if part != 0 {
        return Err("the front first".into());
    }
    Ok(Cursor::of(part))
}

/// Makes a line of all scenes, with their static bound.
fn enlist_whole<H: Hand, B: Bounds>(
    bounds: &B,
    hand: &mut H,
    cursor: &mut Cursor,
) -> Result<u32, Fail>
    requires sound { H.is_sound hand.old }
    requires goes_by { GoesBy B.kind B.film (H.shows hand.old).search }
    requires deep { 2 ≤ depth_of (H.shows hand.old).search }
    requires front { cursor_data cursor.old ≡ record { task = 0; last = None } }
    requires stands { StandsAt (H.shows hand.old) (cursor_data cursor.old) }
    ensures sound { H.is_sound hand.new }
    ensures search { IfOk result (λ _. (H.shows hand.new).search ≡ (H.shows hand.old).search) }
    ensures made { IfOk result (HasWhole B.film (H.shows hand.new)) }
{
    let film = bounds.film();
    film.keeps_limits();
    let empty = Path::start(film);
    let all = empty.rest();
    let bound = bounds.whole(all);
    if all.is_empty() || bound >= hand.look() {
        return Err("a candidate".into());
    }
    match hand.enlist(cursor, &empty, bound)? {
        Listed::Line(line) => Ok(line),
        Listed::Spent { .. } => Err("room for a line".into()),
    }
}

/// Raises the line of all scenes, if each first step justifies the bound.
fn raise_to<H: Hand, B: Bounds>(bounds: &B, hand: &mut H, line: u32, bound: u64) -> Result<(), Fail>
    requires sound { H.is_sound hand.old }
    requires goes_by { GoesBy B.kind B.film (H.shows hand.old).search }
    requires made { HasWhole B.film (H.shows hand.old) line }
    ensures sound { H.is_sound hand.new }
    ensures search { IfOk result (λ _. (H.shows hand.new).search ≡ (H.shows hand.old).search) }
    ensures knows { IfOk result (λ _. Knows (H.shows hand.new).lines
        (record { line = line; set = all_scenes B.film; bound = bound })) }
{
    if bounds.film().all().is_empty() || !each_first_reaches(bounds, bound) {
        return Err("a bound that each first step reaches".into());
    }
    hand.raise(line, bound)?;
    Ok(())
}

/// Makes a line of all scenes in the front, raises it to 60, and notes it.
fn note_whole<H: Hand, B: Bounds>(bounds: &B, hand: &mut H) -> Result<Noted, Fail>
    requires sound { H.is_sound hand.old }
    requires goes_by { GoesBy B.kind B.film (H.shows hand.old).search }
    requires deep { 2 ≤ depth_of (H.shows hand.old).search }
    ensures sound { H.is_sound hand.new }
    ensures search { IfOk result (λ _. (H.shows hand.new).search ≡ (H.shows hand.old).search) }
{
    let mut cursor = claim_front(hand)?;
    let line = enlist_whole(bounds, hand, &mut cursor)?;
    raise_to(bounds, hand, line, 60)?;
    bounds.film().keeps_limits();
    let known = Known {
        line,
        set: bounds.film().all().0,
        bound: 60,
    };
    let noted = hand.note(&known)?;
    Ok(noted)
}

/// The first worker makes and notes a line, and then offers a path; the second asks after each of these.
fn take_turns<H: Hand, B: Bounds>(
    bounds: &B,
    first: &mut H,
    second: &mut H,
    path: &Path,
) -> Result<Told, Fail>
    requires sound { (H.is_sound first.old) × (H.is_sound second.old) }
    requires goes_by { GoesBy B.kind B.film (H.shows first.old).search }
    requires deep { 2 ≤ depth_of (H.shows first.old).search }
    requires same { (H.shows second.old).search ≡ (H.shows first.old).search }
    requires path { IsComplete B.film (path_data path.now) }
{
    let noted = note_whole(bounds, first)?;
    let probed = second.probe(bounds.film().all())?;
    let before = second.look();
    let offered = first.offer(path);
    Ok(Told {
        noted,
        probed,
        before,
        offered,
        behind: second.look(),
    })
}

/// Returns the replies to two workers with passes that are split from these.
fn share<N: Named, R: Wait, B: Bounds>(
    rt: &R,
    alloc: Global,
    bounds: &B,
    least: &Least,
    book: &Book,
    passes: HubParts,
    path: &Path,
) -> Result<Told, Fail>
    requires named { table_of book.now ≡ N.table }
    requires passes { ArePassesOf least.now book.now passes }
    requires counter { passes.source ≡ Counter }
    requires weight { (rest : ℕ) × Weigh (suc (suc rest)) passes }
    requires goes_by { GoesBy B.kind B.film (known passes.lines).search }
    requires deep { 2 ≤ depth_of (known passes.lines).search }
    requires path { IsComplete B.film (path_data path.now) }
{
    let HubParts {
        mut told,
        mut lines,
        source,
    } = passes;
    let stripes: Stripes<N> = Stripes::new(alloc, book, &mut lines, 64)?;
    let other = HubParts {
        told: told.split(least),
        lines: lines.split(book, 1),
        source: Source::Counter,
    };
    let mut first = Hub::of(
        rt,
        least,
        book,
        &stripes,
        HubParts {
            told,
            lines,
            source,
        },
    );
    let mut second = Hub::of(rt, least, book, &stripes, other);
    take_turns(bounds, &mut first, &mut second, path)
}

/// Returns the replies to two workers in a search from `start`, with the front and one task of two scenes.
fn shared<R: Wait, B: Bounds>(
    rt: &R,
    alloc: Global,
    bounds: &B,
    start: &Path,
    path: &Path,
) -> Result<Told, Fail>
    requires start { IsComplete B.film (path_data start.now) }
    requires path { IsComplete B.film (path_data path.now) }
{
    let film = bounds.film();
    film.keeps_limits();
    let task = task_of_two(film).ok_or("a task")?;
    let (least, told) = Least::new(alloc, film, start, 2)?;
    let (book, lines) = Book::new(alloc, film, bounds.kind(), start.paid(), &[task], 1)?;
    let passes = HubParts {
        told,
        lines,
        source: Source::Counter,
    };
    share::<Brand, R, B>(rt, alloc, bounds, &least, &book, passes, path)
}

/// Returns these replies, with bounds of pairs. A type brand names their film and kind.
fn shared_by<N: Bounded, R: Wait>(
    rt: &R,
    alloc: Global,
    film: &Film,
    tables: &BoundTables,
    start: &Path,
    path: &Path,
) -> Result<Told, Fail>
    requires film { film.now ≡ N.film }
    requires kind { Pairs ≡ N.kind }
    requires tables { AreTables film.now tables.now }
    requires start { IsComplete film.now (path_data start.now) }
    requires path { IsComplete film.now (path_data path.now) }
{
    let bounds: FilmBounds<N> = FilmBounds::new(film, tables, Kind::Pairs);
    shared(rt, alloc, &bounds, start, path)
}

#[test]
fn another_worker_is_told_of_a_line_and_a_path(rt: HostRuntime) -> Result<(), Fail> {
    let alloc = rt.alloc();
    let film = meeting(alloc)?;
    let start = path(&film, &[0, 1, 2])?;
    let better = path(&film, &[0, 2, 1])?;
    let tables = BoundTables::of(alloc, &film)?;
    let told = shared_by::<Brand, _>(&rt, alloc, &film, &tables, &start, &better)?;
    assert!(&rt; told.is_as_worked());
    Ok(())
}
