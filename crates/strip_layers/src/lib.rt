//! Breadth-first search by sets under rising cost limits, as in iterative deepening (search by layers). It raises the
//! bound of all scenes in steps, and keeps one line (proved lower bound) for each open set. Below each limit it looks
//! at every set of remaining scenes once, by its cheapest path. A law is a function that does nothing when it runs: its
//! contract is a theorem that a caller obtains by calling it.
#![tactic(auto)]

mod ask;
mod beginning;
mod found;
pub mod laws;
mod layer;
mod layered;
mod limits;
mod looking;
mod raising;
mod searching;
mod sheet;
mod state;
mod walking;

pub use ask::{Alone, Answers, Ask, answer_in_turn};
pub use found::{Found, FoundBounds};
pub use layered::Layered;
pub use limits::{Reached, Watch};
pub use searching::search_by_layers;
