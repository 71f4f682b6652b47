// The knowledge of a pass of a queue.
use std::collections::LinkedList;

/// The knowledge of a pass of a queue. It exists in proofs only: no value of it is made. `weight` is its share of the
/// first pass, and `put` the entries put into the queue, numbers and then ends. `taken` are the numbers taken with the
/// pass, and `ended` says whether it took an end. `has_joined` says whether another pass was joined into it.
pub struct Share {
    pub weight: u64,
    pub put: LinkedList<Option<u32>>,
    pub taken: LinkedList<u32>,
    pub ended: bool,
    pub has_joined: bool,
}
