// Results of a walk and of its first checks.

use strip_film::{Probe, Turns};
use strip_mask::Mask;

/// The result of a walk below a path. `bound`, in units of money, is at most the remaining cost; `line` is the line
/// with this bound, unless it is a static bound. `spent` tells whether the walk was cut short because the line budget
/// is used up.
#[derive(Clone, Copy, Debug, PartialEq, Eq)]
pub struct Found {
    pub bound: u64,
    pub line: Option<u32>,
    pub spent: bool,
}

/// A path that may be enlisted: the incumbent cost it was told, the static bound of its remaining set, and the table's
/// entry of this set.
#[derive(Clone, Copy, Debug)]
pub(crate) struct Passed {
    pub told: u64,
    pub bound: u64,
    pub answer: Probe,
}

/// Whether the static bound or the table rules a path out.
#[derive(Clone, Copy, Debug)]
pub(crate) enum Met {
    Cut(Found),
    Through(Passed),
}

/// An enlisted path: its line, the static bound of its remaining set, and the incumbent cost it was told.
#[derive(Clone, Copy, Debug)]
pub(crate) struct Opened {
    pub line: u32,
    pub bound: u64,
    pub told: u64,
}

/// The outcome of enlisting: the walk of the path ends with an answer, or goes on to its children.
#[derive(Clone, Copy, Debug)]
pub(crate) enum Begun {
    Answered(Found),
    Enlisted(Opened),
}

/// The children of a path that were checked. `visit` has those that need a walk; `least` is the least step plus static
/// bound of the others, or `u64::MAX` if there are none.
#[derive(Clone, Copy, Debug)]
pub(crate) struct Weighed {
    pub visit: Mask,
    pub least: u64,
}

/// The children of a path that need a walk, by rank. `least` is the least step plus static bound of the others, in
/// units of money, or `u64::MAX` if there are none.
#[derive(Debug, Drop)]
pub struct Sifted {
    pub visit: Turns,
    pub least: u64,
}
