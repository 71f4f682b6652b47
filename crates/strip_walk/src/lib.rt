//! Depth-first branch and bound of a subproblem (walk of a task). It reaches the shared search state through any hand
//! (a worker's view of that state).
#![tactic(auto)]

mod beginning;
mod ending;
mod found;
mod sifting;
mod walk;

pub use found::{Found, Sifted};
pub use sifting::sift;
pub use walk::explore;
