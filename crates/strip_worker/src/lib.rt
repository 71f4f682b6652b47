//! A worker's steps of a branch-and-bound search through any hand (a worker's view of the shared state): down the
//! front, through the tasks, and to the end. The end has a proved lower bound of the cost of every order.
#![tactic(auto)]

mod ending;
mod walked;
mod worker;
mod working;

pub use ending::{close, tell};
pub use walked::{Walked, merge};
pub use worker::Worker;
pub use working::{asked_for, go_down_front, work};
