// Passes and their copies.
ghost use Rattle.std.specs.Prelude.{◌≡◌, ◌<◌};

use crate::view::View;
use atomic_table::Seat;
use strip_film::Path;

/// A worker's pass: its desk, and whether it found that the line budget is used up. The seat is the ghost token of its
/// knowledge.
#[derive(Drop)]
pub struct BookPass {
    pub(crate) seat: Seat<Path, View>,
    pub(crate) desk: u32,
    pub(crate) is_spent: bool,
    pub ghost says: { is_spent ≡ seat.me.0.spent },
    pub ghost desks: { desk < 64 },
}

/// A copy of a pass's knowledge of lines, for another pass. It has no bytes at run time.
#[derive(Drop)]
pub struct BookCopy {
    pub(crate) seat: Seat<Path, View>,
}
