//! The dominance rule: scenes of a set that need not come first, since shooting another scene first costs no more. The
//! ready scenes that it lets through are the open firsts of the set.
//!
//! A law (`laws`) is a function that does nothing when it runs: its contract is a theorem that a caller obtains by
//! calling it.
#![tactic(auto)]

pub mod laws;
mod rule;

pub use rule::{open_firsts, open_firsts_with, yields};
