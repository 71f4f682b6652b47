//! The strongest lower bound: the value of a group of actors on location and a few newcomers, who are still to come,
//! is the least that they are paid for waiting. It is a dynamic program over the sets of the group's actors who are
//! still here. A law (`laws`) is a function that does nothing when it runs: its contract is a theorem that a caller
//! obtains by calling it.
#![tactic(auto)]

mod crew;
pub mod laws;
mod party;
mod room;
mod rows;
mod table;

pub use room::Room;
pub use table::ArrivalsTable;
