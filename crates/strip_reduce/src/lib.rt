//! Preprocessing: reduces an instance to a film of classes (groups of scenes with equal casts). An order of classes is
//! expanded to an order of the instance's scenes. Costs that are equal in every order are set apart.
//!
//! A law (`laws`) is a function that does nothing when it runs: its contract is a theorem that a caller obtains by
//! calling it.
#![tactic(auto)]

mod back;
mod classes;
mod draft;
mod edits;
mod fault;
pub mod laws;
mod reduced;
mod search;
mod start;

pub use back::{expand, orient};
pub use classes::reduce;
pub use fault::ReduceFault;
pub use reduced::{MAX_CLASSES, Reduced};
