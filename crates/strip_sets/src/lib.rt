//! Tables with a number for each subset of up to ten places, as slices of blocks of a few places each, and vector
//! operations on whole tables: subset sums, and the pass of a dynamic program over all subsets, four subsets at a time.
//! A law (`laws`) is a function that does nothing when it runs: its contract is a theorem that a caller obtains by
//! calling it.
#![tactic(auto)]

mod by_set;
mod lanes;
pub mod laws;
pub mod table;
mod terms;

pub use by_set::{BySet, Halves};
pub use terms::{Classes, Count, NoClass, One, Two};

/// A block of 32-bit numbers for the sets of four places.
pub type FourPlaces = Halves<Halves<[u32; 4]>>;

/// A block of 32-bit numbers for the sets of five places.
pub type FivePlaces = Halves<FourPlaces>;

/// A block of 32-bit numbers for the sets of six places.
pub type SixPlaces = Halves<FivePlaces>;

/// A block of 64-bit numbers for the sets of four places.
pub type WideFourPlaces = Halves<Halves<Halves<Halves<u64>>>>;
