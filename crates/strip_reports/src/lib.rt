//! Reports of an order: as CSV texts the Day Out of Days report of its actors and the cost sheet of its scenes, and as an
//! HTML page the board. The board shows the shooting order, the actors who work and who are held in each scene, and each
//! actor's pay. A law is a function that does nothing when it runs: its contract is a theorem that a caller obtains by
//! calling it.
#![tactic(auto)]

mod actors;
mod days;
pub mod dood;
mod figures;
mod frame;
mod html;
pub mod laws;
mod order;
mod page;
pub mod sheet;
mod summary;
mod sums;

pub use days::{crews, hold_days, work_days};
pub use figures::{Figures, cast_of, days_of, figures_at, held_at};
pub use page::board;
