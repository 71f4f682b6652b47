// Atomic counters that the workers of a search share.
ghost use Rattle.std.specs.Prelude.{◌≡◌, ◌<◌, ◌↔◌, IfSome, IsSome};
ghost use Rattle.strip_progress.specs.Due.{IsDue, IsLimitDue};

use crate::due::{is_due, is_limit_due, reached};
use crate::row::{LimitRow, Row};
use std::sync::atomic::{AtomicU32, AtomicU64, Ordering};
use strip_hand::{Limit, Standing};

/// Counters that any worker may add to: tasks wanted, tasks begun, workers that began one, and the limits reached.
#[derive(Drop)]
pub(crate) struct Counts {
    wanted: AtomicU32,
    begun: AtomicU32,
    // The bit of a worker is set once it has begun a task.
    entered: AtomicU64,
    // The greatest value of `reached` among the limits so far, 0 if there are none.
    reached: AtomicU64,
}

impl Counts {
    /// Returns counters of a search that hasn't begun: all are 0.
    pub(crate) fn new() -> Counts {
        Counts {
            wanted: AtomicU32::new(0),
            begun: AtomicU32::new(0),
            entered: AtomicU64::new(0),
            reached: AtomicU64::new(0),
        }
    }

    /// Sets the number of wanted tasks.
    pub(crate) fn want(&self, wanted: u32) {
        self.wanted.store(wanted, Ordering::SeqCst);
    }

    /// Counts a task that this worker begins, and returns the row if one is due, with this state of the search. The
    /// worker's number is below 64.
    pub(crate) fn begin(&self, worker: u32, standing: &Standing) -> Option<Row>
        ensures { IfSome result (λ row. IsDue row.begun row.wanted) }
    {
        let workers = self.enter(worker);
        let begun = self.add_task();
        let wanted = self.wanted.load(Ordering::SeqCst);
        if wanted == 0 || !is_due(begun, wanted) {
            return None;
        }
        Some(Row {
            begun,
            wanted,
            workers,
            standing: *standing,
        })
    }

    /// Counts a limit that is reached, and returns the row if one is due.
    pub(crate) fn reach(&self, limit: &Limit) -> Option<LimitRow>
        ensures { IfSome result (λ row. row.limit ≡ limit.now) }
    {
        if limit.steps == 0 {
            return None;
        }
        let reached = reached(limit.number, limit.steps);
        let earlier = self.reached.fetch_max(reached, Ordering::SeqCst);
        limit_row(*limit, earlier)
    }

    /// Adds a task, and returns the number of tasks begun.
    fn add_task(&self) -> u32
        ensures { 0 < result }
    {
        let before = self.begun.fetch_add(1, Ordering::SeqCst);
        before.saturating_add(1)
    }

    /// Records that this worker has begun a task, and returns the number of workers that have. A worker whose number is
    /// 64 or more isn't counted.
    fn enter(&self, worker: u32) -> u32 {
        let own = 1u64.checked_shl(worker).unwrap_or(0);
        let before = self.entered.fetch_or(own, Ordering::SeqCst);
        (before | own).count_ones()
    }
}

/// Returns the row for this limit, if one is due. `earlier` is the greatest value of `reached` among earlier limits, 0
/// if there are none.
fn limit_row(limit: Limit, earlier: u64) -> Option<LimitRow>
    requires { 0 < limit.steps }
    ensures due { IsSome result ↔ IsLimitDue limit.number limit.steps earlier }
    ensures own { IfSome result (λ row. row.limit ≡ limit) }
{
    if !is_limit_due(limit.number, limit.steps, earlier) {
        return None;
    }
    Some(LimitRow { limit })
}
