//! A worker's view of the search state (the trait `Hand`), and what a search reports of its progress (the trait
//! `Gate`). A search runs through both alike with one worker and with several.
//!
//! `Hand::keeps_limits` is a law, a function that does nothing when it runs: its contract is a theorem that a caller
//! obtains by calling it.
#![tactic(auto)]

mod gate;
mod hand;
mod limits;
mod tally;

pub use gate::{Gate, Limit, OpenGate, Stage, Standing};
pub use hand::Hand;
pub use limits::Limits;
pub use tally::Tally;
