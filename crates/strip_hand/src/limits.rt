// The limits of a search.

/// The limits of a search: the number of workers, at most 64, the line budget `nodes`, at most 16,777,216, and the number
/// of table entries, 64 to 4,194,304.
#[derive(Clone, Copy, Debug, PartialEq, Eq)]
pub struct Limits {
    pub workers: u32,
    pub nodes: u32,
    pub entries: u32,
}
