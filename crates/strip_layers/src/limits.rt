// The rising cost limits of a search, and its reports of them.
ghost use Rattle.std.specs.Prelude.{◌≡◌, ◌<◌, ◌≤◌, ◌==◌, ◌+◌};

/// Number of times that the step is halved before a walk may use up the lines.
const HALVINGS: u32 = 2;

/// A report of a limit that was reached. `number` counts whole steps, out of `steps`. `cost` is the pay of the best
/// path, `bound` the bound of all scenes, both in units of money. There are `lines` lines, out of at most `nodes`.
#[derive(Clone, Copy, Debug)]
pub struct Reached {
    pub number: u64,
    pub steps: u32,
    pub cost: u64,
    pub bound: u64,
    pub lines: usize,
    pub nodes: u32,
}

/// An observer of the progress of a search by layers.
pub trait Watch {
    /// Reports that a limit was reached. The search goes on once the call returns.
    fn reached(&self, at: &Reached);
}

/// A walk below a limit, in units of money. `may_spend` tells whether it may use up the lines.
#[derive(Clone, Copy, Debug)]
pub(crate) struct Walk {
    pub limit: u64,
    pub may_spend: bool,
}

/// The limits of a search. They rise by a step from the proved bound; a step that needs too many lines is halved.
#[derive(Clone, Copy, Debug)]
pub(crate) struct Limits {
    ahead: u64,
    whole_step: u64,
    steps: u32,
    step: u64,
    halvings: u32,
    pub ghost some: { 0 < step },
    pub ghost few: { halvings ≤ 2 },
}

impl Limits {
    /// Divides the interval from the look-ahead of all scenes to the initial path's pay into `steps` equal steps, at
    /// least one.
    pub(crate) fn new(ahead: u64, goal: u64, steps: u32) -> Limits
        ensures { result.halvings ≡ 0 }
    {
        let steps = steps.max(1);
        let step = goal.saturating_sub(ahead).div_ceil(u64::from(steps)).max(1);
        Limits {
            ahead,
            whole_step: step,
            steps,
            step,
            halvings: 0,
        }
    }

    /// Returns the next walk: its limit is a step above the proved bound, and at most the best path's pay.
    pub(crate) fn next(&self, proved: u64, cost: u64) -> Walk
        requires { proved < cost }
        ensures more { proved < result.limit }
        ensures most { result.limit ≤ cost }
        ensures spend { result.may_spend ≡ (self.now.halvings == 2) }
    {
        Walk {
            limit: proved.saturating_add(self.step).min(cost),
            may_spend: self.halvings == HALVINGS,
        }
    }

    /// Halves the step.
    pub(crate) fn halve(&mut self)
        requires { self.old.halvings < 2 }
        ensures { self.new.halvings ≡ self.old.halvings + 1 }
    {
        self.step = self.step.div_ceil(2);
        self.halvings += 1;
    }

    /// Returns the number of whole steps below the proved bound.
    pub(crate) fn number(&self, proved: u64) -> u64 {
        let gone = proved.saturating_sub(self.ahead) / self.whole_step.max(1);
        gone.min(u64::from(self.steps))
    }

    /// Returns the number of steps.
    pub(crate) fn steps(&self) -> u32 {
        self.steps
    }
}
