// A worker's job.
use crate::hub::HubParts;
use strip_bound::Bounds;
use strip_memo::Memo;
use strip_worker::Walked;

/// A worker's state in its thread: its number, its passes, its results for the tasks, and its memo (cache of static
/// bounds).
#[derive(Drop)]
pub(crate) struct Job<B: Bounds> {
    pub(crate) number: u32,
    pub(crate) passes: HubParts,
    pub(crate) walked: Walked,
    pub(crate) memo: Memo<B>,
}
