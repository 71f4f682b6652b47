// Entry to a path: complete paths, pruning and enlisting.
ghost use Rattle.std.specs.Prelude.{◌≡◌, ◌≢◌};
ghost use Rattle.strip_film.specs.Film.{LiesIn};
ghost use Rattle.strip_film.specs.Path.{IsComplete, PathData};
ghost use Rattle.strip_film.specs.Shown.{cursor_data, path_data};
ghost use Rattle.strip_hand.specs.Hand.{IsSearchOf};
ghost use Rattle.strip_walk.specs.Found.{MayExplore};
ghost use Rattle.strip_walk.specs.Begun.{Asks, BeginsWalk, IsBest, IsThrough, IsWeighed, Meets, Offers};

use crate::found::{Begun, Found, Met, Opened, Passed};
use strip_bound::Bounds;
use strip_film::{Cursor, Listed, Path, Probe};
use strip_hand::Hand;
use strip_io::Memory;
use strip_mask::Mask;
use strip_memo::Memo;

/// Offers a complete path as a new best one.
pub(crate) fn offer<H: Hand>(hand: &mut H, path: &Path) -> Found
    requires sound { H.is_sound hand.old }
    requires complete { IsComplete (H.shows hand.old).search.film (path_data path.now) }
    ensures sound { H.is_sound hand.new }
    ensures home { H.home hand.new ≡ H.home hand.old }
    ensures offered { Offers (H.shows hand.old) (path_data path.now) result (H.shows hand.new) }
{
    hand.offer(path);
    hand.keeps_limits();
    Found {
        bound: 0,
        line: None,
        spent: false,
    }
}

/// Reads the incumbent cost, and checks whether the static bound or the transposition table rules out a path with this
/// remaining set and this pay. It doesn't need the path itself, so a child is checked before the path is extended.
pub(crate) fn meet<H: Hand, B: Bounds>(
    bounds: &B,
    hand: &mut H,
    rest: Mask,
    paid: u64,
    memo: &mut Memo<B>,
) -> Met
    requires sound { H.is_sound hand.old }
    requires search { IsSearchOf B.kind B.film (H.shows hand.old) }
    requires lies { LiesIn B.film rest.0 }
    ensures sound { H.is_sound hand.new }
    ensures home { H.home hand.new ≡ H.home hand.old }
    ensures met { (path : PathData) → path.rest ≡ rest.0 → path.paid ≡ paid
        → Meets (H.shows hand.old) path result (H.shows hand.new) }
{
    let told = hand.look();
    let room = told.saturating_sub(paid);
    let bound = memo.reach(bounds, rest, room);
    if bound >= room {
        return Met::Cut(Found {
            bound,
            line: None,
            spent: false,
        });
    }
    let answer = ask(hand, rest);
    let passed = Passed {
        told,
        bound,
        answer,
    };
    weighed(passed, room)
}

/// Decides by the table's entry whether a path is ruled out that has `room` units of money below the incumbent cost.
fn weighed(passed: Passed, room: u64) -> Met
    ensures { IsWeighed passed room result }
{
    match passed.answer {
        Probe::Hit(known) if known.bound >= room => Met::Cut(Found {
            bound: known.bound,
            line: Some(known.line),
            spent: false,
        }),
        _ => Met::Through(passed),
    }
}

/// Looks a set up in the table; if memory is refused, it returns a miss.
fn ask<H: Hand>(hand: &mut H, q: Mask) -> Probe
    requires sound { H.is_sound hand.old }
    requires lies { LiesIn (H.shows hand.old).search.film q.0 }
    ensures sound { H.is_sound hand.new }
    ensures home { H.home hand.new ≡ H.home hand.old }
    ensures asked { Asks (H.shows hand.old) q.0 result (H.shows hand.new) }
{
    match hand.probe(q) {
        Ok(answer) => answer,
        Err(_) => Probe::Miss,
    }
}

/// Enlists a path that is not ruled out: makes a line of its remaining set. If the line budget is used up, it returns
/// the best bound that it met.
pub(crate) fn list<H: Hand>(
    hand: &mut H,
    cursor: &mut Cursor,
    path: &Path,
    passed: &Passed,
) -> Result<Begun, Memory>
    requires sound { H.is_sound hand.old }
    requires may { MayExplore (H.shows hand.old) (cursor_data cursor.old) (path_data path.now) }
    requires some { (path_data path.now).rest ≢ 0 }
    requires through { IsThrough (H.shows hand.old) (path_data path.now) passed.now }
    ensures sound { H.is_sound hand.new }
    ensures home { H.home hand.new ≡ H.home hand.old }
    ensures begun { BeginsWalk (H.shows hand.old) (cursor_data cursor.old) (path_data path.now) result
        (H.shows hand.new) (cursor_data cursor.new) }
{
    let listed = hand.enlist(cursor, path, passed.bound)?;
    hand.keeps_limits();
    match listed {
        Listed::Line(line) => Ok(Begun::Enlisted(Opened {
            line,
            bound: passed.bound,
            told: passed.told,
        })),
        Listed::Spent { .. } => Ok(Begun::Answered(best_of(passed))),
    }
}

/// Returns the greater of the static bound and the bound of the line that the table gave.
fn best_of(passed: &Passed) -> Found
    ensures { IsBest passed.now result }
{
    match passed.answer {
        Probe::Hit(known) if known.bound > passed.bound => Found {
            bound: known.bound,
            line: Some(known.line),
            spent: true,
        },
        _ => Found {
            bound: passed.bound,
            line: None,
            spent: true,
        },
    }
}
