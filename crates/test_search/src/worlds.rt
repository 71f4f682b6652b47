// Worlds (search states) of small films: the replies to a run of events, and events that aren't allowed. In the
// triangle each of three scenes has two of three actors. Its tasks are the paths of the scenes 0 and 1, of 0 and 2, and
// of 2 and 1. Each of its orders costs 13 or 14. All numbers are worked by hand.
ghost use Rattle.std.specs.Prelude.{◌≡◌, ◌≤◌, IfOk};
ghost use Rattle.strip_film.specs.Path.{IsComplete};
ghost use Rattle.strip_film.specs.Shown.{path_data};
ghost use Rattle.strip_bound.specs.Tables.{AreTables};
ghost use Rattle.strip_hand.specs.Search.{GoesBy};
ghost use Rattle.strip_world.specs.Sound.{IsSound};

use crate::films::{film, plain_triangle, triangle};
use crate::paths::path;
use std::alloc::Global;
use std::marker::Brand;
use std::test::Fail;
use strip_bound::{BoundTables, Bounded, Bounds, FilmBounds};
use strip_film::{Film, Known, Line, Listed, Noted, Path, Probe};
use strip_front::laws::tasks_are_starts;
use strip_front::make_front;
use strip_hand::Limits;
use strip_model::Kind;
use strip_start::greedy;
use strip_world::laws::what_was_seen_stays_true;
use strip_world::{Event, Reply, World};

fn world<B: Bounds>(alloc: Global, bounds: &B, start: &Path, nodes: u32) -> Result<World, Fail>
    requires start { IsComplete B.film (path_data start.now) }
    requires nodes { (1 ≤ nodes) × (nodes ≤ 16777216) }
    ensures sound { IfOk result IsSound }
    ensures search { IfOk result (λ world. GoesBy B.kind B.film world.search) }
{
    let film = bounds.film();
    film.keeps_limits();
    tasks_are_starts();
    let limits = Limits {
        workers: 2,
        nodes,
        entries: 64,
    };
    let front = make_front(alloc, bounds, 2)?;
    let world = World::new(alloc, film, bounds.kind(), start, front.tasks(), &limits)?;
    Ok(world)
}

/// Makes the complete path of these scenes.
fn order(film: &Film, scenes: &[u32]) -> Result<Path, Fail>
    ensures { IfOk result (λ path. IsComplete film.now (path_data path)) }
{
    let path = path(film, scenes)?;
    if !path.rest().is_empty() {
        return Err("each scene once".into());
    }
    Ok(path)
}

/// Returns the reply to an event, or none if the event isn't allowed.
fn reply<B: Bounds>(bounds: &B, world: &mut World, event: &Event) -> Option<Reply>
    requires sound { IsSound world.old }
    requires search { GoesBy B.kind B.film world.old.search }
    ensures sound { IsSound world.new }
    ensures search { GoesBy B.kind B.film world.new.search }
{
    what_was_seen_stays_true();
    if world.allows(bounds, event) {
        Some(world.step(bounds, event))
    } else {
        None
    }
}

fn known(line: u32, set: u64, bound: u64) -> Known {
    Known { line, set, bound }
}

/// An event and its reply, or none if the event isn't allowed.
#[derive(Drop)]
struct Step(Event, Option<Reply>);

/// Tells whether the events get these replies in turn.
fn are_replied<B: Bounds>(bounds: &B, world: &mut World, steps: &[Step]) -> bool
    requires sound { IsSound world.old }
    requires search { GoesBy B.kind B.film world.old.search }
    ensures sound { IsSound world.new }
    ensures search { GoesBy B.kind B.film world.new.search }
{
    for Step(event, expected) in steps {
        if reply(bounds, world, event) != *expected {
            return false;
        }
    }
    true
}

fn enlist(who: u32, task: u32, path: Path) -> Event {
    Event::Enlist { who, task, path }
}

fn raise(who: u32, bound: u64) -> Event {
    Event::Raise {
        who,
        line: 0,
        bound,
    }
}

// A line that worker 0 makes and worker 1 raises, and that can't be raised further.
fn nine_events(start: Path) -> [Event; 9] {
    let note = Event::Note {
        who: 0,
        known: known(0, 7, 13),
    };
    [
        Event::Look { who: 0 },
        Event::Claim { who: 0 },
        Event::Claim { who: 1 },
        enlist(0, 0, start),
        raise(1, 13),
        note,
        Event::Probe { who: 1, set: 7 },
        Event::Probe { who: 1, set: 6 },
        raise(0, 14),
    ]
}

// The replies to eight of the events; the last event isn't allowed.
fn nine_steps(start: Path) -> [Step; 9] {
    let [look, front, task, whole, raised, note, same, other, above] = nine_events(start);
    let hit = Reply::Probed(Probe::Hit(known(0, 7, 13)));
    [
        Step(look, Some(Reply::Least(13))),
        Step(front, Some(Reply::Task(Some(0)))),
        Step(task, Some(Reply::Task(Some(1)))),
        Step(whole, listed(0)),
        Step(raised, Some(Reply::Raised)),
        Step(note, Some(Reply::Noted(Noted::Fresh))),
        Step(same, Some(hit)),
        Step(other, Some(Reply::Probed(Probe::Miss))),
        Step(above, None),
    ]
}

// A run takes the eight allowed events, and stops at the ninth.
fn runs_eight_of_nine<B: Bounds>(alloc: Global, bounds: &B) -> Result<bool, Fail> {
    let film = bounds.film();
    let mut world = world(alloc, bounds, &order(film, &[0, 1, 2])?, 1)?;
    let count = world.run(bounds, &nine_events(Path::start(film)));
    Ok(count == 8 && has_line_of_13(&world))
}

fn replies_to_nine_events<B: Bounds>(alloc: Global, bounds: &B) -> Result<bool, Fail> {
    let film = bounds.film();
    let mut world = world(alloc, bounds, &order(film, &[0, 1, 2])?, 1)?;
    let steps = nine_steps(Path::start(film));
    Ok(are_replied(bounds, &mut world, &steps) && has_line_of_13(&world))
}

fn has_line_of_13(world: &World) -> bool {
    world.least() == 13 && world.lines() == [Line { set: 7, bound: 13 }].as_slice()
}

// The first scene pays 3, and finishing costs at least 10: the sum reaches 13, the cost that was told.
fn rules_out_by_its_bound<B: Bounds>(alloc: Global, bounds: &B) -> Result<bool, Fail> {
    let film = bounds.film();
    let mut world = world(alloc, bounds, &greedy(film), 9)?;
    reply(bounds, &mut world, &Event::Claim { who: 0 });
    reply(bounds, &mut world, &enlist(0, 0, path(film, &[])?));
    Ok(!world.allows(bounds, &enlist(0, 0, path(film, &[0])?)))
}

fn are_as_worked_by_pairs<B: Bounds>(alloc: Global, bounds: &B) -> Result<bool, Fail> {
    Ok(
        replies_to_nine_events(alloc, bounds)?
            && runs_eight_of_nine(alloc, bounds)?
            && rules_out_by_its_bound(alloc, bounds)?,
    )
}

/// What is tried in worlds of a film.
#[derive(Clone, Copy, Debug)]
enum Trial {
    Pairs,
    PlainBounds,
    Ranks,
    OpenPaths,
}

/// Tells whether worlds of the film, with static bounds of this kind, pass the trial.
fn passes(alloc: Global, film: &Film, kind: Kind, trial: Trial) -> Result<bool, Fail> {
    let tables = BoundTables::of(alloc, film)?;
    passes_by::<Brand>(alloc, film, &tables, kind, trial)
}

fn passes_by<N: Bounded>(
    alloc: Global,
    film: &Film,
    tables: &BoundTables,
    kind: Kind,
    trial: Trial,
) -> Result<bool, Fail>
    requires film { film.now ≡ N.film }
    requires kind { kind ≡ N.kind }
    requires tables { AreTables film.now tables.now }
{
    let bounds: FilmBounds<N> = FilmBounds::new(film, tables, kind);
    match trial {
        Trial::Pairs => are_as_worked_by_pairs(alloc, &bounds),
        Trial::PlainBounds => are_as_worked_by_plain_bounds(alloc, &bounds),
        Trial::Ranks => enlists_by_rank(alloc, &bounds),
        Trial::OpenPaths => lets_open_paths_through(alloc, &bounds),
    }
}

#[test]
fn worlds_by_pairs(rt: HostRuntime) -> Result<(), Fail> {
    let alloc = rt.alloc();
    let film = plain_triangle(alloc)?;
    assert!(&rt; passes(alloc, &film, Kind::Pairs, Trial::Pairs)?);
    Ok(())
}

// With at most one line, the second is refused. These events follow the first four.
fn spends_its_lines<B: Bounds>(alloc: Global, bounds: &B) -> Result<bool, Fail> {
    let film = bounds.film();
    let mut world = world(alloc, bounds, &order(film, &[0, 1, 2])?, 1)?;
    let [look, front, task, whole, ..] = nine_events(Path::start(film));
    let steps = [
        Step(look, Some(Reply::Least(13))),
        Step(front, Some(Reply::Task(Some(0)))),
        Step(task, Some(Reply::Task(Some(1)))),
        Step(whole, listed(0)),
        Step(
            enlist(0, 0, path(film, &[0])?),
            Some(Reply::Listed(Listed::Spent { lines: 1 })),
        ),
    ];
    Ok(are_replied(bounds, &mut world, &steps))
}

/// Takes the events that are allowed.
fn take_all<B: Bounds>(bounds: &B, world: &mut World, events: &[Event])
    requires sound { IsSound world.old }
    requires search { GoesBy B.kind B.film world.old.search }
    ensures sound { IsSound world.new }
    ensures search { GoesBy B.kind B.film world.new.search }
{
    for event in events {
        reply(bounds, world, event);
    }
}

// The world of the triangle with plain bounds and an order of cost 14. Worker 0 has claimed the front, and worker 1 the
// first task. The empty path and that of scene 1 are enlisted, with the bounds 12 and 9.
fn begun<B: Bounds>(alloc: Global, bounds: &B) -> Result<World, Fail>
    ensures sound { IfOk result IsSound }
    ensures search { IfOk result (λ world. GoesBy B.kind B.film world.search) }
{
    let film = bounds.film();
    let mut world = world(alloc, bounds, &order(film, &[0, 2, 1])?, 9)?;
    let events = [
        Event::Look { who: 0 },
        Event::Claim { who: 0 },
        Event::Claim { who: 1 },
        enlist(0, 0, path(film, &[])?),
        enlist(0, 0, path(film, &[0])?),
    ];
    take_all(bounds, &mut world, &events);
    Ok(world)
}

fn unknown_workers(start: Path, first: Path) -> [Event; 7] {
    [
        Event::Look { who: 2 },
        Event::Offer {
            who: 2,
            path: start,
        },
        Event::Claim { who: 2 },
        enlist(2, 0, first),
        Event::Raise {
            who: 2,
            line: 0,
            bound: 12,
        },
        Event::Probe { who: 2, set: 7 },
        Event::Note {
            who: 2,
            known: known(0, 7, 12),
        },
    ]
}

// An unfinished path; an unknown line, and bounds that nothing justifies; a set outside the film; notes of an unknown
// line, of another set, and above the line's bound.
fn unfit(unfinished: Path) -> [Event; 9] {
    [
        Event::Offer {
            who: 0,
            path: unfinished,
        },
        Event::Raise {
            who: 0,
            line: 2,
            bound: 9,
        },
        Event::Raise {
            who: 0,
            line: 0,
            bound: 14,
        },
        Event::Raise {
            who: 1,
            line: 1,
            bound: 11,
        },
        Event::Probe { who: 0, set: 8 },
        Event::Note {
            who: 0,
            known: known(2, 6, 9),
        },
        Event::Note {
            who: 0,
            known: known(0, 6, 9),
        },
        Event::Note {
            who: 0,
            known: known(0, 7, 13),
        },
        Event::Note {
            who: 1,
            known: known(1, 6, 10),
        },
    ]
}

fn none_may_come<B: Bounds>(bounds: &B, world: &World, events: &[Event]) -> bool
    requires sound { IsSound world.now }
    requires search { GoesBy B.kind B.film world.now.search }
{
    for event in events {
        if world.allows(bounds, event) {
            return false;
        }
    }
    true
}

fn refuses_events<B: Bounds>(alloc: Global, bounds: &B) -> Result<bool, Fail> {
    let film = bounds.film();
    let unknown = unknown_workers(greedy(film), path(film, &[1])?);
    let unfit = unfit(path(film, &[0, 1])?);
    let world = begun(alloc, bounds)?;
    Ok(none_may_come(bounds, &world, &unknown) && none_may_come(bounds, &world, &unfit))
}

// Paths that may not be enlisted: in a task of another worker, in an unclaimed task, in an unknown one; the last path
// again, one before it; a path outside the front, one of another task, a complete one, one of the task without a probe.
static PATHS: [(u32, u32, &'static [u32]); 9] = [
    (1, 0, &[1]),
    (0, 3, &[2, 1]),
    (0, 4, &[2, 1]),
    (0, 0, &[0]),
    (0, 0, &[]),
    (0, 0, &[0, 1]),
    (1, 1, &[2, 1]),
    (1, 1, &[0, 1, 2]),
    (1, 1, &[0, 1]),
];

fn refuses_paths<B: Bounds>(alloc: Global, bounds: &B) -> Result<bool, Fail> {
    let world = begun(alloc, bounds)?;
    for (who, task, scenes) in &PATHS {
        let event = enlist(*who, *task, path(bounds.film(), scenes)?);
        if world.allows(bounds, &event) {
            return Ok(false);
        }
    }
    Ok(true)
}

fn refuses_paths_of_other_films<B: Bounds>(alloc: Global, bounds: &B) -> Result<bool, Fail> {
    let other = triangle(alloc, &[1, 2, 4], &[1, 2, 4], &[])?;
    let finished = Event::Offer {
        who: 0,
        path: greedy(&other),
    };
    let events = [finished, enlist(0, 0, path(&other, &[1])?)];
    let own = enlist(0, 0, path(bounds.film(), &[2])?);
    let world = begun(alloc, bounds)?;
    Ok(none_may_come(bounds, &world, &events) && world.allows(bounds, &own))
}

// The path of a task may be enlisted once its remaining set was looked up.
fn asks_for_a_probe<B: Bounds>(alloc: Global, bounds: &B) -> Result<bool, Fail> {
    let event = enlist(1, 1, path(bounds.film(), &[0, 1])?);
    let mut world = begun(alloc, bounds)?;
    reply(bounds, &mut world, &Event::Probe { who: 1, set: 2 });
    if world.allows(bounds, &event) {
        return Ok(false);
    }
    reply(bounds, &mut world, &Event::Probe { who: 1, set: 4 });
    Ok(world.allows(bounds, &event))
}

fn are_as_worked_by_plain_bounds<B: Bounds>(alloc: Global, bounds: &B) -> Result<bool, Fail> {
    Ok(
        spends_its_lines(alloc, bounds)?
            && refuses_events(alloc, bounds)?
            && refuses_paths(alloc, bounds)?
            && refuses_paths_of_other_films(alloc, bounds)?
            && asks_for_a_probe(alloc, bounds)?,
    )
}

#[test]
fn worlds_by_plain_bounds(rt: HostRuntime) -> Result<(), Fail> {
    let alloc = rt.alloc();
    let film = plain_triangle(alloc)?;
    assert!(&rt; passes(alloc, &film, Kind::Plain, Trial::PlainBounds)?);
    Ok(())
}

fn lets_open_paths_through<B: Bounds>(alloc: Global, bounds: &B) -> Result<bool, Fail> {
    let film = bounds.film();
    let closed = enlist(0, 0, path(film, &[2])?);
    let opening = enlist(0, 0, path(film, &[1])?);
    let mut world = world(alloc, bounds, &greedy(film), 9)?;
    reply(bounds, &mut world, &Event::Claim { who: 0 });
    Ok(!world.allows(bounds, &closed) && world.allows(bounds, &opening))
}

/// Returns the reply for a new line with this number.
fn listed(line: u32) -> Option<Reply> {
    Some(Reply::Listed(Listed::Line(line)))
}

// The ranks of the ring's scenes are 21, 23, 22 and 21. So the front has the paths of the scenes 0, 3, 2 and 1, in this
// order.
fn enlists_by_rank<B: Bounds>(alloc: Global, bounds: &B) -> Result<bool, Fail> {
    let film = bounds.film();
    let steps = [
        Step(Event::Claim { who: 0 }, Some(Reply::Task(Some(0)))),
        Step(enlist(0, 0, path(film, &[])?), listed(0)),
        Step(enlist(0, 0, path(film, &[0])?), listed(1)),
        Step(enlist(0, 0, path(film, &[3])?), listed(2)),
        Step(enlist(0, 0, path(film, &[0])?), None),
        Step(enlist(0, 0, path(film, &[2])?), listed(3)),
        Step(enlist(0, 0, path(film, &[3])?), None),
        Step(enlist(0, 0, path(film, &[1])?), listed(4)),
    ];
    let mut world = world(alloc, bounds, &order(film, &[1, 3, 2, 0])?, 9)?;
    Ok(are_replied(bounds, &mut world, &steps))
}

#[test]
fn worlds_by_groups(rt: HostRuntime) -> Result<(), Fail> {
    let alloc = rt.alloc();
    let film = film(
        alloc,
        &[0b1001, 0b0011, 0b0110, 0b1100],
        &[1; 4],
        &[4, 3, 2, 1],
    )?;
    assert!(&rt; passes(alloc, &film, Kind::Groups, Trial::Ranks)?);
    Ok(())
}

// The scenes of one actor come before the scene of both.
#[test]
fn paths_that_are_not_open(rt: HostRuntime) -> Result<(), Fail> {
    let alloc = rt.alloc();
    let film = film(alloc, &[0b01, 0b10, 0b11], &[1, 1, 1], &[10, 20])?;
    assert!(&rt; passes(alloc, &film, Kind::Plain, Trial::OpenPaths)?);
    Ok(())
}
