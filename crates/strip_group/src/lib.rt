//! A lower bound of the pay for waiting of a group of actors on location (its extra), by dynamic programming over
//! subsets of the group.
//!
//! A law (`laws`) is a function that does nothing when it runs: its contract is a theorem that a caller obtains by
//! calling it.
#![tactic(auto)]

mod by_set;
mod days;
pub mod laws;
mod table;

pub use days::DaySums;
pub use table::GroupTable;
