// Entries of the store.

/// A cached value of a set: a number that is at most its static bound, in units of money, and whether it is the whole
/// bound.
#[derive(Clone, Copy, Debug)]
pub(crate) struct Entry {
    pub set: u64,
    pub value: u64,
    pub is_whole: bool,
}

impl Entry {
    /// Returns whether this entry says at least as much as the other about the other's set.
    pub(crate) fn serves_for(&self, other: &Entry) -> bool {
        self.set == other.set && (self.is_whole || self.value > other.value)
    }
}
