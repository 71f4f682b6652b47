//! The search frontier (front): the open paths of the first layers, of which the longest are the search's subproblems
//! (tasks). The crate makes it, enlists its shorter paths as lines, and raises these lines once the tasks are walked.
//!
//! A law (`laws`) is a function that does nothing when it runs: its contract is a theorem that a caller obtains by
//! calling it.
#![tactic(auto)]

mod down;
mod front;
pub mod laws;
mod layer;
mod marks;
mod opening;
mod shorter;
mod tasks;
mod up;

pub use down::go_down;
pub use front::Front;
pub use opening::make_front;
pub use up::close_up;
