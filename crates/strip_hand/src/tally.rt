// The progress of a search.

/// The progress of a search: the least cost that any worker offered, in units of money, the number of lines, and the
/// line budget.
#[derive(Clone, Copy, Debug)]
pub struct Tally {
    pub cost: u64,
    pub lines: u32,
    pub nodes: u32,
}
