//! Films, step costs and partial schedules: the state of the search space. A path is a partial schedule, and the
//! running state is one that is updated in place. The crate also defines the rules of a search (bound, branching and
//! order of children), and the types that its parts share.
//!
//! A law (`laws`, `Film::keeps_limits`) is a function that does nothing when it runs: its contract is a theorem that a
//! caller obtains by calling it.
#![tactic(auto)]

mod cursor;
mod film;
pub mod laws;
mod limits;
mod path;
mod running;
mod shared;
mod shoot;
mod turns;

pub use cursor::Cursor;
pub use film::Film;
pub use limits::{MAX_COUNT, MAX_DAY_SUM, MAX_RATE_SUM};
pub use path::Path;
pub use running::Running;
pub use shared::{Known, Line, Listed, Noted, Probe};
pub use shoot::{cast_of, on, ready, step, step_with};
pub use turns::Turns;
