// A pass's knowledge of a part.
use strip_film::Path;

/// A part that a pass began: the last path enlisted in it, and the number of paths enlisted. No value of it is made.
pub struct Entry {
    pub part: u32,
    pub last: Option<Path>,
    pub number: u64,
}
