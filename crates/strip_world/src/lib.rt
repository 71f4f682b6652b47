//! The whole state of a search by one worker (world), and its seven events. Every list of allowed events keeps the
//! world sound: all lines and table entries are valid lower bounds, and the least cost is at least the optimum.
//!
//! A law (`laws`) is a function that does nothing when it runs: its contract is a theorem that a caller obtains by
//! calling it.
#![tactic(auto)]

mod allowed;
mod calls;
mod event;
mod hand;
pub mod laws;
mod opening;
mod paths;
mod run;
mod state;
mod step;
mod world;

pub use event::{Event, Reply};
pub use world::World;
