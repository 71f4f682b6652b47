// Reports of a running search.

use strip_model::Kind;

/// The state of a search: the best order's cost and the bound of all orders proved so far, if there is one, in units of
/// money. There are `lines` lines, out of at most `nodes`.
#[derive(Clone, Copy, Debug)]
pub struct Standing {
    pub cost: u64,
    pub bound: Option<u64>,
    pub lines: u64,
    pub nodes: u32,
}

/// A limit that a search by layers reached: its number, counted in whole steps, the number of steps, and the state of
/// the search.
#[derive(Clone, Copy, Debug)]
pub struct Limit {
    pub number: u64,
    pub steps: u32,
    pub standing: Standing,
}

/// A finished stage of a search: the kind of its static bounds, and the state of the search.
#[derive(Clone, Copy, Debug)]
pub struct Stage {
    pub kind: Kind,
    pub standing: Standing,
}

/// An observer of a running search, called by any of its workers. A worker goes on once the call returns.
pub trait Gate: Sync {
    /// Reports that the front was gone down: `wanted` tasks (subproblems) are to be walked by `workers` workers. It is
    /// called once, before the first task.
    fn opened(&self, wanted: u32, workers: u32);

    /// Reports that a worker, by number, begins the task of a part, and the state of the search. No bound is proved
    /// yet.
    fn enter(&self, worker: u32, part: u32, standing: &Standing);

    /// Reports that a search by layers reached a limit.
    fn reached(&self, limit: &Limit);

    /// Reports that a stage of the search has ended.
    fn ended(&self, stage: &Stage);
}

/// An observer that does nothing.
#[derive(Drop)]
pub struct OpenGate;

impl Gate for OpenGate {
    fn opened(&self, _wanted: u32, _workers: u32) {}

    fn enter(&self, _worker: u32, _part: u32, _standing: &Standing) {}

    fn reached(&self, _limit: &Limit) {}

    fn ended(&self, _stage: &Stage) {}
}
