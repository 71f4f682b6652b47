//! A shared lock-free list of the lines that workers prove (book), which only grows. A line is two atomic words, which
//! any number of workers write and raise at once. A pass is a token of a worker's knowledge of lines. Each call takes a
//! few atomic steps, and never waits.
//!
//! A law (`laws`) is a function that does nothing when it runs: its contract is a theorem that a caller obtains by
//! calling it.
#![tactic(auto)]

mod book;
mod closing;
mod drawing;
mod entry;
mod knowing;
pub mod laws;
mod opening;
mod pass;
mod peeking;
mod raising;
mod rule;
mod search;
mod view;
mod words;

pub use book::Book;
pub use pass::{BookCopy, BookPass};
