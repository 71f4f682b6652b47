// A search by one worker.
ghost use Rattle.std.specs.Prelude.{◌≡◌, ◌≤◌, length, IfOk};
ghost use Rattle.strip_film.specs.Path.{IsComplete};
ghost use Rattle.strip_film.specs.Shown.{path_data};
ghost use Rattle.strip_lines.specs.Lines.{rules_of};
ghost use Rattle.strip_front.specs.Shown.{front_data};
ghost use Rattle.strip_front.specs.Front.{IsFrontOf};
ghost use Rattle.strip_world.specs.Hand.{IsOwned, hand_data};
ghost use Rattle.strip_world.specs.Opened.{search_of};
ghost use Rattle.strip_hand.specs.Limits.{AreLimits};
ghost use Rattle.strip_lines.specs.Ended.{IsEnded, ended_data};
ghost use Rattle.strip_worker.specs.Team.{HasFront};

use std::alloc::Global;
use strip_bound::Bounds;
use strip_film::Path;
use strip_front::laws::tasks_are_starts;
use strip_front::{Front, make_front};
use strip_hand::{Gate, Hand, Limits, OpenGate};
use strip_io::Memory;
use strip_lines::Ended;
use strip_memo::Memo;
use strip_worker::{Worker, asked_for, close, go_down_front, tell, work};
use strip_world::World;

/// Number of scenes of a task if one worker walks all tasks.
const TASK_SCENES: usize = 2;

/// Searches for a cheapest order of the film with one worker: it goes down the front, walks each wanted task, and
/// raises the front's lines. It begins with a complete path and holds at most `nodes` lines, at most 16,777,216. Its
/// table has `entries` entries, 64 to 4,194,304. The time may grow with the number of open paths that the initial path
/// leaves. Afterwards the memo has the static bounds that were requested last.
pub fn alone<B: Bounds>(
    alloc: Global,
    bounds: &B,
    memo: &mut Memo<B>,
    start: &Path,
    nodes: u32,
    entries: u32,
) -> Result<Ended, Memory>
    requires start { IsComplete B.film (path_data start.now) }
    requires some_lines { 1 ≤ nodes }
    requires few_lines { nodes ≤ 16777216 }
    requires some_entries { 64 ≤ entries }
    requires few_entries { entries ≤ 4194304 }
    ensures ended { IfOk result (λ ended. IsEnded B.kind B.film (path_data start.now) nodes
        (ended_data ended)) }
{
    alone_through(alloc, bounds, memo, start, nodes, entries, &OpenGate)
}

/// Searches as `alone` does, and reports progress to the gate. The worker's number is 0.
pub fn alone_through<B: Bounds, G: Gate>(
    alloc: Global,
    bounds: &B,
    memo: &mut Memo<B>,
    start: &Path,
    nodes: u32,
    entries: u32,
    gate: &G,
) -> Result<Ended, Memory>
    requires start { IsComplete B.film (path_data start.now) }
    requires some_lines { 1 ≤ nodes }
    requires few_lines { nodes ≤ 16777216 }
    requires some_entries { 64 ≤ entries }
    requires few_entries { entries ≤ 4194304 }
    ensures ended { IfOk result (λ ended. IsEnded B.kind B.film (path_data start.now) nodes
        (ended_data ended)) }
{
    let mut front = make_front(alloc, bounds, TASK_SCENES)?;
    let limits = Limits {
        workers: 1,
        nodes,
        entries,
    };
    let mut world = open(alloc, bounds, start, &front, &limits)?;
    let mut walked = go_down_front(alloc, bounds, &mut world, &mut front)?;
    gate.opened(asked_for(&front), 1);
    let worker = Worker { gate, number: 0 };
    work(bounds, &mut world, &front, &worker, memo, &mut walked)?;
    let number = close(bounds, &mut world, &mut front, &walked)?;
    let best = *world.best(0);
    tell(
        alloc,
        bounds,
        &best,
        world.into_lines(),
        number,
        walked.spent,
    )
}

/// Returns the initial world (the whole search state), in which the worker has claimed the front.
fn open<B: Bounds>(
    alloc: Global,
    bounds: &B,
    start: &Path,
    front: &Front,
    limits: &Limits,
) -> Result<World, Memory>
    requires start { IsComplete B.film (path_data start.now) }
    requires front { IsFrontOf (rules_of B.kind B.film) (front_data front.now) }
    requires limits { AreLimits limits.now }
    requires one_worker { limits.now.workers ≡ 1 }
    ensures sound { IfOk result IsOwned }
    ensures one_worker { IfOk result (λ world. length world.workers ≡ 1) }
    ensures front { IfOk result (λ world. HasFront (hand_data world)) }
    ensures search { IfOk result (λ world. world.search
        ≡ search_of B.film B.kind (path_data start.now)
        (front_data front.now).tasks limits.now) }
{
    bounds.film().keeps_limits();
    tasks_are_starts();
    let mut world = World::new(
        alloc,
        bounds.film(),
        bounds.kind(),
        start,
        front.tasks(),
        limits,
    )?;
    world.claim();
    Ok(world)
}
