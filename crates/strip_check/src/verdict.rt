// Verdicts of the checker.

/// The first reason against a plan. Pairs and lines are counted from 1.
#[derive(Clone, Copy, Debug, PartialEq, Eq)]
pub enum Reason {
    /// The order doesn't have each scene once.
    NotAnOrder,
    /// The first of the instance's pairs that the order breaks.
    BrokenPair { pair: u64 },
    /// The order pays `found`, which isn't the plan's cost.
    WrongCost { found: u64 },
    /// The first line whose set has a bit that is no class.
    BadSet { line: u64 },
    /// The first line with a bound above `justified`, the greatest that the lines justify for its set.
    Unjustified { line: u64, justified: u64 },
    /// The known bound of all classes plus the cost set apart is `known`, which is below the plan's bound.
    RootBound { known: u64 },
    /// The status is optimal though the bound isn't the cost, or bounded though it is.
    StatusWrong,
}

/// The checker's decision on a plan.
#[derive(Clone, Copy, Debug, PartialEq, Eq)]
pub enum Verdict {
    Accepted,
    Refused(Reason),
}
