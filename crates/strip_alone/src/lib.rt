//! The branch-and-bound search of a film by one worker, on a state of its own (world). It ends with an order, its lines,
//! and a proved lower bound of the cost of every order.
#![tactic(auto)]

mod search;

pub use search::{alone, alone_through};
