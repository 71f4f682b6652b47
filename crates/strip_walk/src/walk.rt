// Depth-first search of a path's children.
ghost use Rattle.std.specs.Prelude.{◌≡◌, ◌≢◌, IfOk};
ghost use Rattle.strip_film.specs.Path.{extended};
ghost use Rattle.strip_film.specs.Running.{IsRunning};
ghost use Rattle.strip_film.specs.Shoot.{step_cost};
ghost use Rattle.strip_film.specs.Shown.{cursor_data, running_data};
ghost use Rattle.strip_hand.specs.Hand.{IsSearchOf};
ghost use Rattle.strip_walk.specs.Begun.{IsFirst, IsThrough};
ghost use Rattle.strip_walk.specs.Found.{MayExplore};
ghost use Rattle.strip_walk.specs.Walked.{Explores};

use crate::beginning::{list, meet, offer};
use crate::ending::close;
use crate::found::{Begun, Found, Met, Passed};
use crate::sifting::sift;
use strip_bound::Bounds;
use strip_film::{Cursor, Known, Running};
use strip_hand::Hand;
use strip_io::Memory;
use strip_memo::Memo;

/// Searches depth-first below the path of `running`, and returns a lower bound of the remaining cost, in units of
/// money. It prunes by the static bound or the table; otherwise it enlists the path and searches the children by rising
/// rank. Then it raises the path's line to the least step plus bound over the children, and notes it in the table. At
/// the end `running` is as at the beginning; if memory is refused, it may have moved on.
///
/// Each path costs a look and a static bound. An enlisted path costs a probe, a raise, a note, and a step and a static
/// bound for each open first. A child is checked before `running` moves to it. Only the hand takes memory.
pub fn explore<H: Hand, B: Bounds>(
    bounds: &B,
    hand: &mut H,
    cursor: &mut Cursor,
    running: &mut Running,
    memo: &mut Memo<B>,
) -> Result<Found, Memory>
    requires sound { H.is_sound hand.old }
    requires search { IsSearchOf B.kind B.film (H.shows hand.old) }
    requires running { IsRunning B.film (running_data running.old) }
    requires may { MayExplore (H.shows hand.old) (cursor_data cursor.old) (running_data running.old).path }
    ensures sound { H.is_sound hand.new }
    ensures home { H.home hand.new ≡ H.home hand.old }
    ensures running { IfOk result (λ _. IsRunning B.film (running_data running.new)
        × ((running_data running.new).path ≡ (running_data running.old).path)) }
    ensures explored { Explores (H.shows hand.old) (cursor_data cursor.old) (running_data running.old).path result
        (H.shows hand.new) (cursor_data cursor.new) }
{
    if running.rest().is_empty() {
        return Ok(offer(hand, running.path()));
    }
    let met = meet(bounds, hand, running.rest(), running.paid(), memo);
    hand.keeps_limits();
    match met {
        Met::Cut(found) => Ok(found),
        Met::Through(passed) => walk_on(bounds, hand, cursor, running, memo, &passed),
    }
}

/// Enlists a path that is not ruled out, searches its children, and raises its line.
#[cycle(children)]
fn walk_on<H: Hand, B: Bounds>(
    bounds: &B,
    hand: &mut H,
    cursor: &mut Cursor,
    running: &mut Running,
    memo: &mut Memo<B>,
    passed: &Passed,
) -> Result<Found, Memory>
    requires sound { H.is_sound hand.old }
    requires search { IsSearchOf B.kind B.film (H.shows hand.old) }
    requires running { IsRunning B.film (running_data running.old) }
    requires may { MayExplore (H.shows hand.old) (cursor_data cursor.old) (running_data running.old).path }
    requires some { (running_data running.old).path.rest ≢ 0 }
    requires through { IsThrough (H.shows hand.old) (running_data running.old).path passed.now }
    ensures sound { H.is_sound hand.new }
    ensures home { H.home hand.new ≡ H.home hand.old }
    ensures running { IfOk result (λ _. IsRunning B.film (running_data running.new)
        × ((running_data running.new).path ≡ (running_data running.old).path)) }
    ensures explored { Explores (H.shows hand.old) (cursor_data cursor.old) (running_data running.old).path result
        (H.shows hand.new) (cursor_data cursor.new) }
{
    let film = bounds.film();
    film.keeps_limits();
    let opened = match list(hand, cursor, running.path(), passed)? {
        Begun::Answered(found) => return Ok(found),
        Begun::Enlisted(opened) => opened,
    };
    hand.keeps_limits();
    let mut sifted = sift(bounds, running, memo, opened.told);
    let mut spent = false;
    while let Some(s) = sifted.visit.take_next() {
        let step = running.step(film, s);
        let found = walk_child(bounds, hand, cursor, running, memo, s, step)?;
        hand.keeps_limits();
        sifted.least = sifted.least.min(step + found.bound);
        spent |= found.spent;
    }
    let known = Known {
        line: opened.line,
        set: running.rest().0,
        bound: sifted.least.max(opened.bound),
    };
    close(hand, &known, spent)
}

/// Searches below the path extended by the open first `s`, at the cost `step`. Most children are ruled out by their
/// remaining set and their pay, so `running` moves only to the others.
#[cycle(children)]
fn walk_child<H: Hand, B: Bounds>(
    bounds: &B,
    hand: &mut H,
    cursor: &mut Cursor,
    running: &mut Running,
    memo: &mut Memo<B>,
    s: u32,
    step: u64,
) -> Result<Found, Memory>
    requires sound { H.is_sound hand.old }
    requires search { IsSearchOf B.kind B.film (H.shows hand.old) }
    requires running { IsRunning B.film (running_data running.old) }
    requires first { IsFirst (H.shows hand.old).search (running_data running.old).path s }
    requires step { step ≡ step_cost B.film (running_data running.old).path.rest s }
    requires may { MayExplore (H.shows hand.old) (cursor_data cursor.old)
        (extended (H.shows hand.old).search.film (running_data running.old).path s) }
    ensures sound { H.is_sound hand.new }
    ensures home { H.home hand.new ≡ H.home hand.old }
    ensures running { IfOk result (λ _. IsRunning B.film (running_data running.new)
        × ((running_data running.new).path ≡ (running_data running.old).path)) }
    ensures explored { Explores (H.shows hand.old) (cursor_data cursor.old)
        (extended (H.shows hand.old).search.film (running_data running.old).path s) result
        (H.shows hand.new) (cursor_data cursor.new) }
{
    let film = bounds.film();
    film.keeps_limits();
    let rest = running.rest().without(s);
    if rest.is_empty() {
        running.take_with(film, s, step);
        let found = offer(hand, running.path());
        running.back(film);
        return Ok(found);
    }
    let met = meet(bounds, hand, rest, running.paid() + step, memo);
    hand.keeps_limits();
    match met {
        Met::Cut(found) => Ok(found),
        Met::Through(passed) => {
            running.take_with(film, s, step);
            let found = walk_on(bounds, hand, cursor, running, memo, &passed)?;
            running.back(film);
            Ok(found)
        }
    }
}
