// The knowledge of a pass.
use std::collections::LinkedList;
use strip_film::Film;

/// The knowledge of a pass. It exists in proofs only: no value of it is made. `weight` is its share of the first pass.
/// `told` is the least cost that it was told or offered, `best` its best path's pay, and `claims` the parts that it
/// claimed.
pub struct View {
    pub weight: u64,
    pub ended: bool,
    pub film: Film,
    pub start: u64,
    pub parts: u32,
    pub told: u64,
    pub best: u64,
    pub claims: LinkedList<u32>,
}
