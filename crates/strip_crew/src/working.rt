// Jobs: dealt to threads, done and gathered.
ghost use Rattle.std.specs.Prelude.{◌≡◌, ◌<◌, ◌≤◌, ◌+◌, ℕ, List, All, IfOk, false, length, vec_len};
ghost use Rattle.strip_hand.specs.Hand.{IsSearchOf};
ghost use Rattle.strip_front.specs.Shown.{front_data};
ghost use Rattle.strip_book.specs.Pass.{table_of};
ghost use Rattle.strip_worker.specs.Team.{HasWorked, HasWorkedOn};
ghost use Rattle.strip_crew.specs.Source.{source_home};
ghost use Rattle.strip_crew.specs.Sources.{Deals, IsWorkers, split_home};
ghost use Rattle.strip_crew.specs.Crew.{AreDealt, ArePassesOf, CanSplit, HasGathered, HaveWorked, IsDone, IsJob, Weigh, shown};

use crate::hub::{Hub, HubParts};
use crate::job::Job;
use crate::lent::Race;
use crate::passes::{join, split};
use crate::rooted::Rooted;
use crate::tables::Tables;
use std::sync::Wait;
use std::thread;
use std::thread::Threads;
use strip_bound::Bounds;
use strip_front::Front;
use strip_hand::Gate;
use strip_io::Memory;
use strip_memo::Memo;
use strip_stripes::Named;
use strip_worker::{Walked, Worker, merge, work};

/// Makes a job for each worker, with passes of weight 1 that are split off these, if the front wasn't cut short. It
/// takes a memo and a number for each task for each worker. The caller has a memo besides.
fn deal<R, N: Named, B: Bounds, G>(
    race: &Race<R, B, G>,
    tables: &Tables<N>,
    front: &Front,
    passes: &mut HubParts,
) -> Result<Vec<Job<B>>, Memory>
    requires passes { ArePassesOf tables.now.least tables.now.book passes.old }
    requires search { IsSearchOf B.kind B.film (shown passes.old) }
    requires worked { (found : List ℕ) × HasWorked (shown passes.old) (front_data front.now) found false }
    requires weight { (rest : ℕ) × Weigh (1 + rest + race.now.limits.workers) passes.old }
    requires deals { (desk : ℕ) → desk < race.now.limits.workers → Deals desk (split_home passes.old.source) }
    requires workers { race.now.limits.workers ≤ 64 }
    ensures { IfOk result (λ jobs. AreDealt B.kind B.film (front_data front.now)
        tables.now.least tables.now.book
        passes.old passes.new jobs.items race.now.limits.workers) }
{
    let alloc = race.alloc;
    let workers = race.limits.workers;
    let mut jobs = Vec::new(alloc);
    for desk in 0..workers {
        let memo = Memo::among(alloc, race.bounds, workers + 1)?;
        let walked = Walked::new(alloc, front)?;
        jobs.push(Job {
            number: desk,
            passes: split(alloc, &tables.least, &tables.book, passes, desk)?,
            walked,
            memo,
        })?;
    }
    Ok(jobs)
}

/// Claims parts with these passes until none is left, and walks each wanted task, as the worker with this number. The
/// results are merged into `walked`.
pub(crate) fn work_alone<R: Wait, N: Named, B: Bounds, G: Gate>(
    race: &Race<R, B, G>,
    number: u32,
    tables: &Tables<N>,
    front: &Front,
    memo: &mut Memo<B>,
    walked: &mut Walked,
    passes: HubParts,
) -> Result<HubParts, Memory>
    requires named { table_of tables.now.book ≡ N.table }
    requires passes { ArePassesOf tables.now.least tables.now.book passes }
    requires worker { IsWorkers passes.source }
    requires worked { HasWorkedOn B.kind B.film (shown passes) (front_data front.now)
        walked.old.found.items walked.old.spent }
    ensures home { IfOk result (λ after. source_home after.source ≡ source_home passes.source) }
    ensures worker { IfOk result (λ after. IsWorkers after.source) }
    ensures worked { (weight : ℕ) → IfOk result
        (λ after. HaveWorked weight (front_data front.now) tables.now.least tables.now.book passes after walked.new) }
{
    let worker = Worker {
        gate: race.gate,
        number,
    };
    let mut hub = Hub::of(
        race.rt,
        &tables.least,
        &tables.book,
        &tables.stripes,
        passes,
    );
    work(race.bounds, &mut hub, front, &worker, memo, walked)?;
    Ok(hub.parts())
}

/// Does a job: claims parts with its passes until none is left, and walks the wanted tasks.
fn do_job<R: Wait, N: Named, B: Bounds, G: Gate, S: Rooted>(
    race: &Race<R, B, G>,
    tables: &Tables<N>,
    front: &Front,
    job: Job<B>,
) -> Result<Job<B>, Memory>
    requires named { table_of tables.now.book ≡ N.table }
    requires job { IsJob B.kind B.film (front_data front.now)
        tables.now.least tables.now.book S.home job }
    ensures { IfOk result (IsDone B.kind B.film (front_data front.now)
        tables.now.least tables.now.book S.home) }
{
    let Job {
        number,
        passes,
        mut walked,
        mut memo,
    } = job;
    let passes = work_alone(race, number, tables, front, &mut memo, &mut walked, passes)?;
    Ok(Job {
        number,
        passes,
        walked,
        memo,
    })
}

/// Does each job in a thread, and waits for all.
fn do_jobs<
    R: Threads + Wait + Sync,
    N: Named + Send + Sync,
    B: Bounds + Send + Sync,
    G: Gate,
    S: Rooted + Send + Sync,
>(
    race: &Race<R, B, G>,
    tables: &Tables<N>,
    front: &Front,
    jobs: Vec<Job<B>>,
) -> Result<Vec<Result<Job<B>, Memory>>, Memory>
    requires named { table_of tables.now.book ≡ N.table }
    requires jobs { All (IsJob B.kind B.film (front_data front.now)
        tables.now.least tables.now.book S.home) jobs.items }
    ensures count { IfOk result (λ all. vec_len all ≡ vec_len jobs) }
    ensures each { IfOk result (λ all. All (λ one. IfOk one
        (IsDone B.kind B.film (front_data front.now) tables.now.least tables.now.book S.home))
        all.items) }
{
    let all = thread::map_vec(
        race.rt,
        jobs,
        &|job: Job<B>| -> Result<Job<B>, Memory>
            requires { (table_of tables.now.book ≡ N.table) × IsJob B.kind B.film (front_data front.now)
                tables.now.least tables.now.book S.home job }
            ensures { IfOk result (IsDone B.kind B.film (front_data front.entry.now)
                tables.entry.now.least tables.entry.now.book S.home) }
        { do_job::<R, N, B, G, S>(race, tables, front, job) },
    )?;
    Ok(all)
}

/// Merges a worker's results and passes into the given ones, and returns its memo.
fn gather<N: Named, B: Bounds>(
    tables: &Tables<N>,
    passes: &mut HubParts,
    walked: &mut Walked,
    job: Job<B>,
) -> Memo<B>
    requires passes { ArePassesOf tables.now.least tables.now.book passes.old }
    requires other { ArePassesOf tables.now.least tables.now.book job.passes }
    requires from { source_home job.passes.source ≡ split_home passes.old.source }
    requires long { length walked.old.found.items ≡ length job.walked.found.items }
    ensures gathered { HasGathered tables.now.least tables.now.book passes.old walked.old job passes.new walked.new }
    ensures memo { result ≡ job.memo }
{
    let Job {
        passes: other,
        walked: found,
        memo,
        ..
    } = job;
    join(&tables.least, &tables.book, passes, other);
    merge(walked, &found);
    memo
}

/// Walks the wanted tasks on a thread for each worker, after the front was gone down and wasn't cut short. Then it
/// merges their results and passes into the given ones. `memo` becomes one worker's memo.
pub(crate) fn work_beside<
    R: Threads + Wait + Sync,
    N: Named + Send + Sync,
    B: Bounds + Send + Sync,
    G: Gate,
    S: Rooted + Send + Sync,
>(
    race: &Race<R, B, G>,
    tables: &Tables<N>,
    front: &Front,
    memo: &mut Memo<B>,
    passes: &mut HubParts,
    walked: &mut Walked,
) -> Result<(), Memory>
    requires named { table_of tables.now.book ≡ N.table }
    requires passes { ArePassesOf tables.now.least tables.now.book passes.old }
    requires worked { HasWorkedOn B.kind B.film (shown passes.old) (front_data front.now)
        walked.old.found.items walked.old.spent }
    requires whole { walked.old.spent ≡ false }
    requires split { CanSplit race.now.limits.workers S.home passes.old }
    requires workers { (1 ≤ race.now.limits.workers) × (race.now.limits.workers ≤ 64) }
    ensures worked { (weight : ℕ) → IfOk result
        (λ _. HaveWorked weight
        (front_data front.now) tables.now.least tables.now.book passes.old passes.new walked.new) }
{
    let jobs = deal(race, tables, front, passes)?;
    let mut all = do_jobs::<R, N, B, G, S>(race, tables, front, jobs)?;
    while let Some(one) = all.pop() {
        // Trimming will use the memo of one worker.
        *memo = gather(tables, passes, walked, one?);
    }
    Ok(())
}
