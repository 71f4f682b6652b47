//! The checker of plans (certificates): it decides whether a plan's lines justify its bound, whoever made the plan. No
//! order that keeps the pairs (precedence constraints) pays less than the bound of an accepted plan. A law is a
//! function that does nothing when it runs: its contract is a theorem that a caller obtains by calling it.
#![tactic(auto)]

mod checking;
mod fault;
mod justify;
pub mod laws;
mod order;
mod proof;
mod told;
mod verdict;

pub use checking::check;
pub use fault::CheckFault;
pub use verdict::{Reason, Verdict};
