//! The transposition table that the workers of a search share: 16 shards (stripes), each behind a lock. Beside each
//! stripe stands a ghost copy of a pass that knows the lines of its entries. Only `Stripes::probe` and `note` wait.
//!
//! A law (`laws`, `Shelf::keeps_true_bounds`) is a function that does nothing when it runs: its contract is a theorem
//! that a caller obtains by calling it.
#![tactic(auto)]

pub mod laws;
mod named;
mod shelf;
mod stripes;

pub use named::Named;
pub use shelf::Shelf;
pub use stripes::Stripes;
