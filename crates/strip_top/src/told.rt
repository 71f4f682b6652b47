// Progress reports of the search of an instance's classes.
use strip_hand::{Gate, Limit, Stage, Standing};
use strip_layers::{Reached, Watch};
use strip_lines::Ended;
use strip_model::Kind;

/// The gate of a search of classes. It reports costs and bounds with the cost set apart, in units of money.
#[derive(Drop)]
pub(crate) struct Told<'g, G: Gate> {
    pub gate: &'g G,
    pub apart: u64,
}

/// Adds the cost set apart to the state of the classes' search.
fn with_apart(standing: &Standing, apart: u64) -> Standing {
    Standing {
        cost: standing.cost.saturating_add(apart),
        bound: match standing.bound {
            Some(bound) => Some(bound.saturating_add(apart)),
            None => None,
        },
        lines: standing.lines,
        nodes: standing.nodes,
    }
}

impl<'g, G: Gate> Told<'g, G> {
    /// Reports the end of a search, with the kind of its static bounds and the greatest number of its lines.
    pub(crate) fn end(&self, kind: Kind, ended: &Ended, nodes: u32) {
        let standing = Standing {
            cost: ended.cost,
            bound: Some(ended.bound),
            lines: ended.held,
            nodes,
        };
        self.gate.ended(&Stage {
            kind,
            standing: with_apart(&standing, self.apart),
        });
    }
}

impl<'g, G: Gate> Gate for Told<'g, G> {
    fn opened(&self, wanted: u32, workers: u32) {
        self.gate.opened(wanted, workers);
    }

    fn enter(&self, worker: u32, part: u32, standing: &Standing) {
        self.gate
            .enter(worker, part, &with_apart(standing, self.apart));
    }

    fn reached(&self, limit: &Limit) {
        self.gate.reached(&Limit {
            number: limit.number,
            steps: limit.steps,
            standing: with_apart(&limit.standing, self.apart),
        });
    }

    fn ended(&self, stage: &Stage) {
        self.gate.ended(&Stage {
            kind: stage.kind,
            standing: with_apart(&stage.standing, self.apart),
        });
    }
}

impl<'g, G: Gate> Watch for Told<'g, G> {
    fn reached(&self, at: &Reached) {
        let standing = Standing {
            cost: at.cost,
            bound: Some(at.bound),
            lines: at.lines as u64,
            nodes: at.nodes,
        };
        self.gate.reached(&Limit {
            number: at.number,
            steps: at.steps,
            standing: with_apart(&standing, self.apart),
        });
    }
}
