// A worker's share of a search: the way down the front, and the tasks.
ghost use Rattle.std.specs.Prelude.{◌≡◌, IfErr, IfOk};
ghost use Rattle.strip_io.specs.Counts.{Rose};
ghost use Rattle.strip_film.specs.Shown.{CursorData, path_data};
ghost use Rattle.strip_hand.specs.Hand.{IsSearchOf};
ghost use Rattle.strip_front.specs.Calls.{GoesDown};
ghost use Rattle.strip_front.specs.Shown.{front_data};
ghost use Rattle.strip_walk.specs.Found.{MayExplore};
ghost use Rattle.strip_worker.specs.Team.{HasClaimed, HasEnded, HasWorked, HasWorkedOn, MayStart, OwnsFront, WorksOn};
ghost use Rattle.strip_worker.specs.Team.{WalksPart, WalksTask, beginning};

use crate::walked::Walked;
use crate::worker::Worker;
use std::alloc::Global;
use strip_bound::Bounds;
use strip_film::{Cursor, Path, Running};
use strip_front::{Front, go_down};
use strip_hand::{Gate, Hand};
use strip_io::Memory;
use strip_memo::Memo;
use strip_walk::{Found, explore};

/// Goes down the front, the only part that the hand has claimed, and returns 0 for each task and whether the front was
/// cut short. `HasWorked` holds if the hand knows only lines that it made on the way. It takes a number for each task,
/// and the calls of `go_down`.
pub fn go_down_front<H: Hand, B: Bounds>(
    alloc: Global,
    bounds: &B,
    hand: &mut H,
    front: &mut Front,
) -> Result<Walked, Memory>
    requires sound { H.is_sound hand.old }
    requires search { IsSearchOf B.kind B.film (H.shows hand.old) }
    requires may { MayStart (H.shows hand.old) (front_data front.old) }
    ensures sound { H.is_sound hand.new }
    ensures home { H.home hand.new ≡ H.home hand.old }
    ensures tasks { (front_data front.new).tasks ≡ (front_data front.old).tasks }
    ensures down { (cursor : CursorData) × GoesDown (H.shows hand.old) (H.shows hand.new) cursor }
    ensures worked { IfOk result (λ walked. OwnsFront (H.shows hand.new)
        → HasWorked (H.shows hand.new) (front_data front.new) walked.found.items walked.spent) }
{
    let mut walked = Walked::new(alloc, front)?;
    let spent = go_down(bounds, hand, &mut Cursor::of(0), front)?;
    walked.spent = spent;
    Ok(walked)
}

/// Returns the number of tasks that are to be walked.
pub fn asked_for(front: &Front) -> u32 {
    let wanted = front.wanted.iter().filter(|wanted| **wanted);
    u32::try_from(wanted.count()).unwrap_or(u32::MAX)
}

/// Claims parts until none is left, and walks each wanted task, after a report to the worker's gate. It skips the
/// front, since the caller went down it. `walked` has the hand's earlier results, and then also the new ones. It fails
/// with `Memory` only if the hand was refused memory. The time may grow with the number of open paths that the initial
/// path leaves.
pub fn work<H: Hand, B: Bounds, G: Gate>(
    bounds: &B,
    hand: &mut H,
    front: &Front,
    worker: &Worker<G>,
    memo: &mut Memo<B>,
    walked: &mut Walked,
) -> Result<(), Memory>
    requires sound { H.is_sound hand.old }
    requires worked { HasWorkedOn B.kind B.film (H.shows hand.old) (front_data front.now)
        walked.old.found.items walked.old.spent }
    ensures sound { H.is_sound hand.new }
    ensures home { H.home hand.new ≡ H.home hand.old }
    ensures works_on { WorksOn (H.shows hand.old) (H.shows hand.new) }
    ensures ended { IfOk result (λ _. HasEnded (H.shows hand.new) (front_data front.now)
        walked.new.found.items walked.new.spent) }
    ensures memory { IfErr result (λ _. Rose (H.shows hand.old).refusals (H.shows hand.new).refusals) }
{
    while let Some(part) = hand.claim() {
        walk_part(bounds, hand, front, worker, part, memo, walked)?;
    }
    Ok(())
}

/// Walks the task of a claimed part, if it is wanted.
fn walk_part<H: Hand, B: Bounds, G: Gate>(
    bounds: &B,
    hand: &mut H,
    front: &Front,
    worker: &Worker<G>,
    part: u32,
    memo: &mut Memo<B>,
    walked: &mut Walked,
) -> Result<(), Memory>
    requires sound { H.is_sound hand.old }
    requires claimed { HasClaimed B.kind B.film (H.shows hand.old) (front_data front.now)
        walked.old.found.items walked.old.spent part }
    ensures sound { H.is_sound hand.new }
    ensures home { H.home hand.new ≡ H.home hand.old }
    ensures walks { WalksPart (H.shows hand.old) part (H.shows hand.new) }
    ensures worked { IfOk result (λ _. HasWorked (H.shows hand.new) (front_data front.now)
        walked.new.found.items walked.new.spent) }
    ensures memory { IfErr result (λ _. Rose (H.shows hand.old).refusals (H.shows hand.new).refusals) }
{
    hand.keeps_limits();
    // Part 0 is the front.
    if part == 0 {
        return Ok(());
    }
    let task = part as usize - 1;
    if front.wanted[task] {
        worker.begin(part, hand.tally());
        let found = walk(bounds, hand, &front.tasks()[task], part, memo)?;
        hand.keeps_limits();
        walked.found[task] = found.bound;
        walked.spent |= found.spent;
    }
    Ok(())
}

/// Walks a task from its path on. `part` is its number among the parts of the search.
fn walk<H: Hand, B: Bounds>(
    bounds: &B,
    hand: &mut H,
    task: &Path,
    part: u32,
    memo: &mut Memo<B>,
) -> Result<Found, Memory>
    requires sound { H.is_sound hand.old }
    requires search { IsSearchOf B.kind B.film (H.shows hand.old) }
    requires may { MayExplore (H.shows hand.old) (beginning part) (path_data task.now) }
    ensures sound { H.is_sound hand.new }
    ensures home { H.home hand.new ≡ H.home hand.old }
    ensures walked { WalksTask (H.shows hand.old) part (path_data task.now) result (H.shows hand.new) }
{
    let mut cursor = Cursor::of(part);
    let mut running = Running::of(bounds.film(), task);
    explore(bounds, hand, &mut cursor, &mut running, memo)
}
