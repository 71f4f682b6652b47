// A worker that reports to an observer.

use strip_hand::{Gate, Standing, Tally};

/// A worker of a search: its number and its observer.
#[derive(Drop)]
pub struct Worker<'g, G: Gate> {
    pub gate: &'g G,
    pub number: u32,
}

impl<'g, G: Gate> Worker<'g, G> {
    /// Reports that the worker begins the task of a part, with the state of the search.
    pub(crate) fn begin(&self, part: u32, tally: Tally) {
        let standing = Standing {
            cost: tally.cost,
            bound: None,
            lines: u64::from(tally.lines),
            nodes: tally.nodes,
        };
        self.gate.enter(self.number, part, &standing);
    }
}
