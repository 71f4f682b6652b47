//! Caches of static bounds, keyed by sets of remaining scenes. A memo is one worker's: it is direct-mapped, so a new
//! set replaces the set at its place. The workers of a search share a store, which has 64 shards (drawers), each behind
//! a lock. Only `reach` of the store waits for a lock, and no bound is computed while one is held.
#![tactic(auto)]

mod drawer;
mod entry;
mod memo;
mod store;

pub use memo::Memo;
pub use store::{Shared, Store};
