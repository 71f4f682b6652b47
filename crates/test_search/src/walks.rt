// A search through a hand: down the front, then its tasks as they are claimed, then up the front.
ghost use Rattle.std.specs.Prelude.{◌≡◌, IfOk, Some};
ghost use Rattle.strip_lines.specs.Lines.{rules_of};
ghost use Rattle.strip_front.specs.Front.{IsEmptyFront};
ghost use Rattle.strip_front.specs.Shown.{front_data};
ghost use Rattle.strip_hand.specs.Calls.{Claims};
ghost use Rattle.strip_hand.specs.Hand.{IsSearchOf};
ghost use Rattle.test_search.specs.Way.{IsOnItsWay};

use std::alloc::Global;
use std::test::Fail;
use strip_bound::Bounds;
use strip_film::{Cursor, Running};
use strip_front::{Front, close_up, go_down};
use strip_hand::Hand;
use strip_memo::Memo;
use strip_walk::explore;

/// Searches through a hand of a search in which nothing was claimed yet, and returns the resulting bound.
pub(crate) fn search<H: Hand, B: Bounds>(
    alloc: Global,
    bounds: &B,
    hand: &mut H,
    front: &mut Front,
) -> Result<u64, Fail>
    requires sound { H.is_sound hand.old }
    requires search { IsSearchOf B.kind B.film (H.shows hand.old) }
    requires tasks { (H.shows hand.old).search.tasks ≡ (front_data front.old).tasks }
    requires front { IsEmptyFront (rules_of B.kind B.film) (front_data front.old) }
    ensures sound { H.is_sound hand.new }
    ensures home { H.home hand.new ≡ H.home hand.old }
{
    let mut found = begin(alloc, bounds, hand, front)?;
    take_tasks(alloc, bounds, hand, front, &mut found)?;
    let bound = close_up(bounds, hand, front, &found)?;
    Ok(bound)
}

/// Claims the front and goes down it. No task has a result yet.
fn begin<H: Hand, B: Bounds>(
    alloc: Global,
    bounds: &B,
    hand: &mut H,
    front: &mut Front,
) -> Result<Vec<u64>, Fail>
    requires sound { H.is_sound hand.old }
    requires search { IsSearchOf B.kind B.film (H.shows hand.old) }
    requires tasks { (H.shows hand.old).search.tasks ≡ (front_data front.old).tasks }
    requires front { IsEmptyFront (rules_of B.kind B.film) (front_data front.old) }
    ensures sound { H.is_sound hand.new }
    ensures home { H.home hand.new ≡ H.home hand.old }
    ensures way { IfOk result (λ found. IsOnItsWay B.kind B.film (H.shows hand.new)
        (front_data front.new) found.items) }
{
    let part = claimed(hand)?;
    if part != 0 {
        return Err("the front first".into());
    }
    go_down(bounds, hand, &mut Cursor::of(0), front)?;
    let found = vec![in alloc; 0; front.tasks().len()]?;
    Ok(found)
}

/// Claims a part, or fails if none is left.
fn claimed<H: Hand>(hand: &mut H) -> Result<u32, Fail>
    requires { H.is_sound hand.old }
    ensures sound { H.is_sound hand.new }
    ensures home { H.home hand.new ≡ H.home hand.old }
    ensures claimed { IfOk result (λ part. Claims (H.shows hand.old) (Some part) (H.shows hand.new)) }
{
    match hand.claim() {
        Some(part) => Ok(part),
        None => Err("a part that is left".into()),
    }
}

/// Claims as many parts as there are tasks, and walks each wanted task.
fn take_tasks<H: Hand, B: Bounds>(
    alloc: Global,
    bounds: &B,
    hand: &mut H,
    front: &Front,
    found: &mut Vec<u64>,
) -> Result<(), Fail>
    requires sound { H.is_sound hand.old }
    requires way { IsOnItsWay B.kind B.film (H.shows hand.old)
        (front_data front.now) found.old.items }
    ensures sound { H.is_sound hand.new }
    ensures home { H.home hand.new ≡ H.home hand.old }
    ensures way { IfOk result (λ _. IsOnItsWay B.kind B.film (H.shows hand.new)
        (front_data front.now) found.new.items) }
{
    let mut memo = Memo::new(alloc, bounds)?;
    for _ in 0..front.tasks().len() {
        take_task(bounds, hand, front, found, &mut memo)?;
    }
    Ok(())
}

/// Claims a task, and walks it if it is wanted.
fn take_task<H: Hand, B: Bounds>(
    bounds: &B,
    hand: &mut H,
    front: &Front,
    found: &mut Vec<u64>,
    memo: &mut Memo<B>,
) -> Result<(), Fail>
    requires sound { H.is_sound hand.old }
    requires way { IsOnItsWay B.kind B.film (H.shows hand.old)
        (front_data front.now) found.old.items }
    ensures sound { H.is_sound hand.new }
    ensures home { H.home hand.new ≡ H.home hand.old }
    ensures way { IfOk result (λ _. IsOnItsWay B.kind B.film (H.shows hand.new)
        (front_data front.now) found.new.items) }
{
    bounds.film().keeps_limits();
    let part = claimed(hand)?;
    if part == 0 {
        return Err("a task after the front".into());
    }
    let task = part as usize - 1;
    if front.wanted[task] {
        let mut cursor = Cursor::of(part);
        let mut running = Running::of(bounds.film(), &front.tasks()[task]);
        found[task] = explore(bounds, hand, &mut cursor, &mut running, memo)?.bound;
    }
    Ok(())
}
