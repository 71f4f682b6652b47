//! Static bounds: lower bounds of the cost of finishing a set of remaining scenes, from the film alone. There are four
//! kinds (`Kind`). A search asks for them through a source of bounds (`Bounds`), which may cache them.
//!
//! A law (`laws`) is a function that does nothing when it runs: its contract is a theorem that a caller obtains by
//! calling it.
#![tactic(auto)]

mod bounded;
mod bounds;
mod falling;
mod film_bounds;
pub mod laws;
mod newcomers;
mod parties;
mod source;
mod tables;

pub use bounded::Bounded;
pub use bounds::{groups, pairs, plain, static_bound};
pub use film_bounds::FilmBounds;
pub use source::{Bounds, promised, rank};
pub use strip_arrivals::Room;
pub use tables::BoundTables;
