//! Progress rows of a running search, on standard error. A law is a function that does nothing when it runs: its
//! contract is a theorem that a caller obtains by calling it.
#![tactic(auto)]

mod counts;
mod due;
pub mod laws;
mod progress;
mod row;

pub use due::{is_due, is_limit_due};
pub use progress::Progress;
