// The memory in which values are computed.
use strip_sets::{BySet, FivePlaces, FourPlaces, SixPlaces};

/// Scratch memory for the tables of a value: 60 KB, enough for any group of ten actors with two newcomers. A value
/// doesn't depend on what an earlier one left in it.
#[derive(Drop)]
pub struct Room {
    pub(crate) four: [FourPlaces; 14],
    pub(crate) five: [FivePlaces; 14],
    pub(crate) six: [SixPlaces; 224],
}

impl Room {
    /// Makes the memory. It clears it, which takes some microseconds, so one is made for many values.
    pub fn new() -> Room {
        Room {
            four: [FourPlaces::all(0); 14],
            five: [FivePlaces::all(0); 14],
            six: [SixPlaces::all(0); 224],
        }
    }
}
