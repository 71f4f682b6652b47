//! Lines: lower bounds of the cost of finishing sets of remaining scenes, as a search records them. A line is justified
//! if it follows from static bounds and other lines. Every line of a justified list is a valid lower bound. The crate
//! also has upper bounds on the number of paths (partial schedules) that a search enlists, and so on its lines, and the
//! result of a search (`Ended`).
//!
//! A law (`laws`) is a function that does nothing when it runs: its contract is a theorem that a caller obtains by
//! calling it.
#![tactic(auto)]

mod ended;
pub mod laws;

pub use ended::Ended;
