//! Bit sets of numbers below 64 (masks), and sums of values over a set.
//!
//! A law (`laws`) is a function that does nothing when it runs: its contract is a theorem that a caller obtains by
//! calling it.
#![tactic(auto)]

pub mod laws;
mod mask;

pub use mask::{Mask, MaskIter, sum_over};
