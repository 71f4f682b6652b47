// Types that the parts of a search share.

/// A line: a lower bound, in units of money, of the cost of finishing a set of scenes. The set is a mask.
#[derive(Clone, Copy, Debug, PartialEq, Eq)]
pub struct Line {
    pub set: u64,
    pub bound: u64,
}

/// A worker's knowledge of a line: its number, its set, and a lower bound of its current bound.
#[derive(Clone, Copy, Debug, PartialEq, Eq)]
pub struct Known {
    pub line: u32,
    pub set: u64,
    pub bound: u64,
}

/// The result of enlisting a path: the number of the new line, or `Spent` if the line budget of `lines` lines is used
/// up.
#[derive(Clone, Copy, Debug, PartialEq, Eq)]
pub enum Listed {
    Line(u32),
    Spent { lines: u32 },
}

/// The result of a table lookup (probe): an entry of the set, or none.
#[derive(Clone, Copy, Debug, PartialEq, Eq)]
pub enum Probe {
    Hit(Known),
    Miss,
}

/// The effect of a table insertion (note). `Fresh`: a new entry. `Raised`: the set's entry was raised. `Stays`: the
/// set's entry stays, since its `bound` is as great. `Evicted`: a new entry in place of the given one.
#[derive(Clone, Copy, Debug, PartialEq, Eq)]
pub enum Noted {
    Fresh,
    Raised,
    Stays { bound: u64 },
    Evicted { set: u64, bound: u64 },
}
