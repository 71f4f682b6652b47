// Plans.
use strip_film::Line;
use strip_model::Kind;

/// Whether a plan's bound proves that its order is a cheapest one.
#[derive(Clone, Copy, Debug, PartialEq, Eq)]
pub enum Status {
    /// The bound equals the cost.
    Optimal,
    /// The search ended before the bound reached the cost: some order may cost less, but none less than the bound.
    Bounded,
}

/// An order of an instance's scenes, and the results of a search.
#[derive(Debug, Drop)]
pub struct Plan {
    pub status: Status,
    /// The kind of the static bounds that the lines depend on.
    pub kind: Kind,
    /// The pay of the order, in units of money.
    pub cost: u64,
    /// A lower bound of every order's pay, in units of money.
    pub bound: u64,
    /// Number of lines of the search at its end.
    pub held: u64,
    /// The numbers of the scenes in shooting order.
    pub order: Vec<u16>,
    /// The lines that prove the bound; empty if no proof is given.
    pub lines: Vec<Line>,
}
