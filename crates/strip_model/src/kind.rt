// The kinds of static bounds.

/// The kind of static bound (lower bound of a set of remaining scenes, from the film alone) that a search uses.
#[derive(Clone, Copy, Debug, PartialEq, Eq)]
pub enum Kind {
    /// The pay for work: the days of each scene of the set, at the rates of its cast.
    Plain,
    /// `Plain`, and the least pay for waiting of disjoint pairs of actors on location.
    Pairs,
    /// `Plain`, and the least pay for waiting of disjoint groups of up to six actors on location.
    Groups,
    /// `Plain`, and the least pay for waiting of larger disjoint groups on location, each together with newcomers
    /// (actors who are still to come).
    Arrivals,
}
