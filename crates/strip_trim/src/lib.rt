//! The best line (proved lower bound) of each set of remaining scenes in a list, and trimming: the removal of lines
//! that the bound of all scenes doesn't need. A law is a function that does nothing when it runs: its contract is a
//! theorem that a caller obtains by calling it.
#![tactic(auto)]

mod best;
pub mod laws;
mod marks;
mod trimming;

pub use best::{Best, BestLine};
pub use trimming::trim;
