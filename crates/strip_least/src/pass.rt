// Passes.
ghost use Rattle.std.specs.Prelude.{◌≡◌};
ghost use Rattle.strip_film.specs.Shown.{path_data};

use crate::view::View;
use atomic_table::Seat;
use strip_film::Path;

/// A worker's pass: its best path, and whether it found that no part is left. The seat is the ghost token of its
/// knowledge.
#[derive(Drop)]
pub struct LeastPass {
    pub(crate) seat: Seat<(), View>,
    pub(crate) best: Path,
    pub(crate) has_ended: bool,
    pub ghost says: { has_ended ≡ seat.me.0.ended },
    pub ghost pays: { (path_data best).paid ≡ seat.me.0.best },
}
