// A parallel search.
ghost use Rattle.std.specs.Prelude.{◌≡◌, ◌*◌, ◌⊎◌, ◌≤◌, true, ℕ, IfOk};
ghost use Rattle.strip_film.specs.Path.{IsComplete};
ghost use Rattle.strip_film.specs.Shown.{path_data};
ghost use Rattle.strip_lines.specs.Paths.{factorial};
ghost use Rattle.strip_front.specs.Shown.{front_data};
ghost use Rattle.strip_hand.specs.Limits.{AreLimits};
ghost use Rattle.strip_least.specs.Pass.{known as known_least};
ghost use Rattle.strip_least.specs.Rule.{full_weight, once_below, times};
ghost use Rattle.strip_book.specs.Pass.{table_of};
ghost use Rattle.strip_lines.specs.Ended.{EndsFrom, IsEnded, ended_data};
ghost use Rattle.strip_worker.specs.Team.{HasWorkedOn};
ghost use Rattle.strip_crew.specs.declared.source.Source.TheVariants.{Counter};
ghost use Rattle.strip_crew.specs.declared.hub.HubParts.{HubParts};
ghost use Rattle.strip_crew.specs.Crew.{ArePassesOf, HaveWorked, NoPartLeft, Weigh, shown};
ghost use Rattle.strip_crew.specs.Race.{HasBegun, HasClosed, HasOnlyFront, IsOpening, MayBegin};

use crate::hub::{Hub, HubParts};
use crate::lent::Race;
use crate::passes::settle;
use crate::queues::with_source;
use crate::source::Source;
use crate::tables::Tables;
use crate::working::{work_alone, work_beside};
use std::alloc::Global;
use std::marker::Brand;
use std::sync::Wait;
use std::thread::Threads;
use strip_book::Book;
use strip_book::laws::{lines_of_entries_are_counted, other_parts_have_no_record};
use strip_bound::Bounds;
use strip_film::Path;
use strip_front::laws::tasks_are_starts;
use strip_front::{Front, make_front};
use strip_hand::{Gate, Hand};
use strip_io::Memory;
use strip_least::Least;
use strip_lines::Ended;
use strip_lines::laws::paths_are_few;
use strip_memo::Memo;
use strip_stripes::{Named, Stripes};
use strip_worker::{Walked, asked_for, close, go_down_front, tell};

/// The initial state of a race: its front (search frontier) without lines, the shared incumbent cost and next part, the
/// book (list of lines), and the first passes of both.
#[derive(Drop)]
struct Opening {
    front: Front,
    least: Least,
    book: Book,
    passes: HubParts,
}

/// Searches for a cheapest order of the film with several workers, each in a thread. The caller goes down the front,
/// the workers walk the wanted tasks, and the caller raises the front's lines. The search begins with a complete path
/// and keeps the limits. The gate gets reports of its progress.
///
/// The claims of its result are those of a search by one worker, however the threads interleave. All memory except the
/// queues and a list for each worker is taken before they start, with 16 bytes for each possible line. Each worker has
/// a memo of his own; together the memos take at most 128 MB. The caller waits for the workers. They wait for the locks
/// of the table, and for a worker who is about to take from the same queue.
pub fn race<R: Threads + Wait + Sync, B: Bounds + Send + Sync, G: Gate>(
    race: &Race<R, B, G>,
    memo: &mut Memo<B>,
    start: &Path,
) -> Result<Ended, Memory>
    requires start { IsComplete B.film (path_data start.now) }
    requires limits { AreLimits race.now.limits }
    ensures ended { IfOk result (λ ended. IsEnded B.kind B.film (path_data start.now) race.now.limits.nodes
        (ended_data ended)) }
{
    paths_are_few();
    race.bounds.film().keeps_limits();
    let scenes = race.bounds.film().scenes();
    let room = room_for(scenes, race.limits.nodes);
    let most = task_scenes(scenes, race.limits.workers);
    let opening = open(race.alloc, race.bounds, start, room, most)?;
    in_race::<Brand, R, B, G>(race, memo, opening)
}

/// Returns the greatest possible number of lines: the nodes, or twice the number of orders of the scenes if that is less.
/// No search makes more lines.
fn room_for(scenes: usize, nodes: u32) -> u32
    requires scenes { scenes ≤ 64 }
    requires some { 1 ≤ nodes }
    requires few { nodes ≤ 16777216 }
    ensures some { 1 ≤ result }
    ensures within { result ≤ nodes }
    ensures enough { (result ≡ nodes) ⊎ (result ≡ 2 * factorial scenes) }
{
    let mut orders = 1u64;
    for scene in 0..scenes as u64 {
        if orders > u64::from(nodes) {
            return nodes;
        }
        orders *= scene + 1;
    }
    u64::from(nodes).min(orders.saturating_mul(2)) as u32
}

/// Returns the number of scenes of a task: three; or four for more than eight workers, if there are at most 65,536 sets
/// of four scenes, as with up to 36 scenes.
fn task_scenes(scenes: usize, workers: u32) -> usize
    ensures { (2 ≤ result) × (result ≤ 4) }
{
    if workers > 8 && scenes <= 36 { 4 } else { 3 }
}

/// Makes the initial state of a race, with room for `room` lines and with tasks of at most `most` scenes.
fn open<B: Bounds>(
    alloc: Global,
    bounds: &B,
    start: &Path,
    room: u32,
    most: usize,
) -> Result<Opening, Memory>
    requires start { IsComplete B.film (path_data start.now) }
    requires some { 1 ≤ room }
    requires few { room ≤ 16777216 }
    requires some_scenes { 2 ≤ most }
    requires few_scenes { most ≤ 4 }
    ensures { IfOk result (IsOpening B.kind B.film (path_data start.now).paid room) }
{
    let film = bounds.film();
    film.keeps_limits();
    tasks_are_starts();
    let front = make_front(alloc, bounds, most)?;
    let parts = front.tasks().len() as u32 + 1;
    let (least, told) = Least::new(alloc, film, start, parts)?;
    let (book, lines) = Book::new(
        alloc,
        film,
        bounds.kind(),
        start.paid(),
        front.tasks(),
        room,
    )?;
    Ok(Opening {
        front,
        least,
        book,
        passes: HubParts {
            told,
            lines,
            source: Source::Counter,
        },
    })
}

/// Runs the race with a type brand that ties the table's locks to the book whose lines they guard.
fn in_race<N: Named + Send + Sync, R: Threads + Wait + Sync, B: Bounds + Send + Sync, G: Gate>(
    race: &Race<R, B, G>,
    memo: &mut Memo<B>,
    opening: Opening,
) -> Result<Ended, Memory>
    requires named { table_of opening.book ≡ N.table }
    requires opening { (paid : ℕ) × (room : ℕ) × IsOpening B.kind B.film paid room opening }
    requires limits { AreLimits race.now.limits }
    ensures ended { (paid room : ℕ) → IsOpening B.kind B.film paid room opening
        → IfOk result (λ ended. EndsFrom B.kind B.film paid room (ended_data ended)) }
{
    let Opening {
        mut front,
        least,
        book,
        mut passes,
    } = opening;
    let stripes = Stripes::new(race.alloc, &book, &mut passes.lines, race.limits.entries)?;
    let tables: Tables<N> = Tables {
        least,
        book,
        stripes,
    };
    let (passes, number, spent) = walk_all(race, memo, &tables, &mut front, passes)?;
    end(race, tables, passes, number, spent)
}

/// Goes down the front, has the tasks walked, and raises the front's lines. It returns the bound to which the line of
/// all scenes was raised, and whether the search was cut short. The returned passes know all lines.
fn walk_all<N: Named + Send + Sync, R: Threads + Wait + Sync, B: Bounds + Send + Sync, G: Gate>(
    race: &Race<R, B, G>,
    memo: &mut Memo<B>,
    tables: &Tables<N>,
    front: &mut Front,
    passes: HubParts,
) -> Result<(HubParts, u64, bool), Memory>
    requires named { table_of tables.now.book ≡ N.table }
    requires begin { MayBegin B.kind B.film (front_data front.old)
        tables.now.least tables.now.book passes }
    requires limits { AreLimits race.now.limits }
    ensures closed { IfOk result (λ closed. HasClosed B.kind B.film
        tables.now.least tables.now.book passes closed.0 closed.1 closed.2) }
{
    let (passes, mut walked) = begin(race, tables, front, passes)?;
    race.gate.opened(asked_for(front), race.limits.workers);
    let passes = work_all(race, tables, front, memo, &mut walked, passes)?;
    let (passes, number) = close_front(race, tables, front, passes, &walked)?;
    Ok((passes, number, walked.spent))
}

/// Claims the front and goes down it. It returns the passes, which then know all lines, and the results.
fn begin<R: Wait, N: Named, B: Bounds, G>(
    race: &Race<R, B, G>,
    tables: &Tables<N>,
    front: &mut Front,
    passes: HubParts,
) -> Result<(HubParts, Walked), Memory>
    requires named { table_of tables.now.book ≡ N.table }
    requires begin { MayBegin B.kind B.film (front_data front.old)
        tables.now.least tables.now.book passes }
    ensures { IfOk result (λ begun. HasBegun (front_data front.new)
        tables.now.least tables.now.book passes begun.0 begun.1) }
{
    other_parts_have_no_record();
    let mut hub = Hub::of(
        race.rt,
        &tables.least,
        &tables.book,
        &tables.stripes,
        passes,
    );
    hub.claim();
    let walked = go_down_front(race.alloc, race.bounds, &mut hub, front)?;
    let mut passes = hub.parts();
    settle(&tables.least, &tables.book, &mut passes);
    Ok((passes, walked))
}

/// Runs all wanted tasks on a thread for each worker. If the line budget was used up in the front, the caller runs them
/// alone.
fn work_all<R: Threads + Wait + Sync, N: Named + Send + Sync, B: Bounds + Send + Sync, G: Gate>(
    race: &Race<R, B, G>,
    tables: &Tables<N>,
    front: &Front,
    memo: &mut Memo<B>,
    walked: &mut Walked,
    passes: HubParts,
) -> Result<HubParts, Memory>
    requires named { table_of tables.now.book ≡ N.table }
    requires passes { ArePassesOf tables.now.least tables.now.book passes }
    requires full { Weigh full_weight passes }
    requires worked { HasWorkedOn B.kind B.film (shown passes) (front_data front.now)
        walked.old.found.items walked.old.spent }
    requires only { HasOnlyFront passes }
    requires workers { (1 ≤ race.now.limits.workers) × (race.now.limits.workers ≤ 64) }
    ensures worked { IfOk result (λ after. HaveWorked full_weight (front_data front.now)
        tables.now.least tables.now.book passes after walked.new) }
{
    if walked.spent {
        return work_alone(race, 0, tables, front, memo, walked, passes);
    }
    let mut passes = with_source(
        race.alloc,
        &tables.least,
        &tables.book,
        front,
        race.limits.workers,
        race.steal,
        passes,
    )?;
    work_beside::<R, N, B, G, Brand>(race, tables, front, memo, &mut passes, walked)?;
    Ok(passes)
}

/// Raises the front's lines, with passes into which all others were joined. It returns the passes, which then know all
/// lines, and the bound to which the line of all scenes was raised.
fn close_front<R: Wait, N: Named, B: Bounds, G>(
    race: &Race<R, B, G>,
    tables: &Tables<N>,
    front: &mut Front,
    passes: HubParts,
    walked: &Walked,
) -> Result<(HubParts, u64), Memory>
    requires named { table_of tables.now.book ≡ N.table }
    requires passes { ArePassesOf tables.now.least tables.now.book passes }
    requires full { Weigh full_weight passes }
    requires worked { HasWorkedOn B.kind B.film (shown passes) (front_data front.old)
        walked.now.found.items walked.now.spent }
    requires left { NoPartLeft passes }
    ensures { IfOk result (λ closed. HasClosed B.kind B.film tables.now.least tables.now.book passes closed.0 closed.1 walked.now.spent) }
{
    let mut passes = passes;
    settle(&tables.least, &tables.book, &mut passes);
    let mut hub = Hub::of(
        race.rt,
        &tables.least,
        &tables.book,
        &tables.stripes,
        passes,
    );
    let number = close(race.bounds, &mut hub, front, walked)?;
    let mut passes = hub.parts();
    settle(&tables.least, &tables.book, &mut passes);
    Ok((passes, number))
}

/// Takes the lines out of the book, and makes the result of the race.
fn end<R, N: Named, B: Bounds, G>(
    race: &Race<R, B, G>,
    tables: Tables<N>,
    passes: HubParts,
    number: u64,
    spent: bool,
) -> Result<Ended, Memory>
    requires closed { (before : HubParts)
        × HasClosed B.kind B.film tables.least tables.book before passes number spent }
    ensures { IfOk result (λ ended. EndsFrom B.kind B.film (shown passes).search.start
        (shown passes).search.nodes (ended_data ended)) }
{
    lines_of_entries_are_counted();
    let Tables { book, .. } = tables;
    let HubParts { told, lines, .. } = passes;
    let best = *told.best();
    let lines = book.into_lines(race.alloc, lines)?;
    tell(race.alloc, race.bounds, &best, lines, number, spent)
}
