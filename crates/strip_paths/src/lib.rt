//! Successors of a path (partial schedule), and for each set of remaining scenes the cheapest path that leaves it.
//! Paths with equal sets and dearer pay are dominated, and dropped.
#![tactic(auto)]

mod by_set;
mod longer;

pub use by_set::PathsBySet;
pub use longer::put_paths_after;
