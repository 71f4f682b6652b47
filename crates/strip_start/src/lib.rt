//! The initial order of a search: a greedy construction heuristic (start), then local search by moves of one scene,
//! then simulated annealing with a number of random changes (tries).
//!
//! A law (`laws`) is a function that does nothing when it runs: its contract is a theorem that a caller obtains by
//! calling it.
#![tactic(auto)]

mod annealing;
mod beside;
mod change;
mod choose;
mod cooling;
mod draws;
pub mod laws;
mod listed;
mod moves;
mod order;
mod prices;
mod scan;
mod sides;
mod varying;

pub use beside::vary_beside;
pub use choose::greedy;
pub use listed::{or_listed, path_of};
pub use moves::improve;
pub use varying::vary;
