//! Work stealing: queues of numbers, from which each worker takes its own numbers first, and then those of the others.
#![tactic(auto)]

mod deal;
mod queues;
mod rule;
mod seat;
mod share;
mod step;
mod taker;

pub use deal::pool;
pub use queues::Pool;
pub use taker::{Taken, Taker};
