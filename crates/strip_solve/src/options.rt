// The options of a search, and the number of local-search moves that they lead to.

use strip_bound::Bounds;
use strip_film::Path;
use strip_model::Kind;

/// Number of local-search moves for each class on the initial order, if the options give none.
const TRIES_A_CLASS: u32 = 5_000;

/// The options of a search.
#[derive(Clone, Copy, Debug)]
pub struct SearchOptions {
    /// The kind of the static bounds.
    pub kind: Kind,
    /// The greatest number of lines (proved lower bounds), 1 to 16,777,216.
    pub nodes: u32,
    /// Number of entries of the transposition table, 64 to 4,194,304.
    pub entries: u32,
    /// Number of local-search moves on the initial order. If none is given, it is 5,000 for each class.
    pub tries: Option<u32>,
    /// Number of steps in which a search by layers raises the bound of all scenes; none for a depth-first search.
    pub steps: Option<u32>,
    /// Whether each of several workers has a queue of tasks, and steals from the others when his own is empty.
    pub steal: bool,
    /// Whether the program chooses kind and steps: first a search with pair bounds and few lines, then if needed a
    /// search by layers with arrival bounds. It ignores the options `kind`, `steps` and `steal`.
    pub auto: bool,
}

/// Returns the number of local-search moves: as many as asked for, or 5,000 for each class if none are. It is 0 if the
/// static bound of all scenes proves that no path is cheaper.
pub fn useful_tries<B: Bounds>(bounds: &B, start: &Path, asked: Option<u32>) -> u32 {
    let film = bounds.film();
    film.keeps_limits();
    if bounds.whole(film.all()) >= start.paid() {
        return 0;
    }
    asked.unwrap_or(TRIES_A_CLASS * film.scenes() as u32)
}
