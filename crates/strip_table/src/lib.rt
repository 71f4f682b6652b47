//! A transposition table, 4-way set-associative with replacement. For sets of remaining scenes it has a line that
//! bounds the cost of finishing them. It has 16 shards (stripes); a stripe is a list of buckets of four entries.
//!
//! A law (`laws`, `Stripe::keeps_limits`) is a function that does nothing when it runs: its contract is a theorem that
//! a caller obtains by calling it.
#![tactic(auto)]

mod bucket;
mod home;
pub mod laws;
mod slot;
mod stripe;

pub use bucket::Bucket;
pub use home::{STRIPES, bucket_of, stripe_of};
pub use slot::PLACES;
pub use stripe::Stripe;
