// An observer that prints the progress of a search.
use crate::counts::Counts;
use crate::row::StageRow;
use strip_hand::{Gate, Limit, Stage, Standing};

/// An observer (gate) that prints the progress of a search on standard error, and delays no worker. It prints a row
/// with each further fortieth of the wanted tasks: how many were begun and by how many workers. For a search by layers
/// it prints the first limit reached, and each that reaches a further fortieth of the steps. It also prints the end of
/// each stage. Each row ends with the state of the search. If workers begin tasks at the same time, the later of two
/// rows may come first. A row that can't be written is skipped.
#[derive(Drop)]
pub struct Progress<'r, R: Eprint> {
    host: &'r R,
    counts: Counts,
}

impl<'r, R: Eprint> Progress<'r, R> {
    /// Returns the observer of a search that hasn't begun.
    pub fn new(host: &'r R) -> Progress<'r, R> {
        Progress {
            host,
            counts: Counts::new(),
        }
    }
}

impl<'r, R: Eprint + Sync> Gate for Progress<'r, R> {
    fn opened(&self, wanted: u32, _workers: u32) {
        self.counts.want(wanted);
    }

    fn enter(&self, worker: u32, _part: u32, standing: &Standing) {
        if let Some(row) = self.counts.begin(worker, standing) {
            let _ = self.host.eprintln(row);
        }
    }

    fn reached(&self, limit: &Limit) {
        if let Some(row) = self.counts.reach(limit) {
            let _ = self.host.eprintln(row);
        }
    }

    fn ended(&self, stage: &Stage) {
        let _ = self.host.eprintln(StageRow { stage: *stage });
    }
}
