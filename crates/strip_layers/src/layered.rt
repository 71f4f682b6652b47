// The result of a search by layers.

use crate::found::Found;
use strip_film::{Line, Path};

/// The result of a search by layers: its lines, at most one for each set, and the bound of all scenes that they prove,
/// in units of money. `best` is the cheapest complete path that it met, or its initial path. `is_spent` tells whether
/// the lines ran out before the bound reached this path's pay. `found` has the static bounds that it computed.
#[derive(Debug, Drop)]
pub struct Layered {
    pub lines: Vec<Line>,
    pub bound: u64,
    pub best: Path,
    pub is_spent: bool,
    pub found: Found,
}
