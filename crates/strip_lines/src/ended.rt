// The result of a search.

use strip_film::Line;

/// The result of a search: an order of the film's scenes, its cost in units of money, and a lower bound of every
/// order's cost, in units of money. `held` is the number of lines, and `lines` has them in the order of their creation.
/// A line is a set of scenes with a lower bound of the cost of finishing it. `spent` tells whether the search was cut
/// short because the line budget is used up.
#[derive(Debug, Drop)]
pub struct Ended {
    pub order: Vec<u8>,
    pub cost: u64,
    pub bound: u64,
    pub held: u64,
    pub lines: Vec<Line>,
    pub spent: bool,
}
