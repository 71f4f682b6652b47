//! Instances of the talent scheduling problem: scenes with names, days and casts, actors with rates, and pairs
//! (precedence constraints) of scenes. Over plain lists the crate defines orders of scenes and the pay of an order,
//! which instances and films share, and it names the static bounds. It also checks an order and computes its pay.
//!
//! A law (`laws`, `Instance::keeps_limits`) is a function that does nothing when it runs: its contract is a theorem
//! that a caller obtains by calling it.
#![tactic(auto)]

mod befores;
mod fitting;
mod instance;
mod kind;
pub mod laws;
mod limits;
mod names;
mod pair;
mod pricing;
mod scene;
mod scene_set;

pub use befores::Befores;
pub use fitting::{MAX_SCENES, fit};
pub use instance::Instance;
pub use kind::Kind;
pub use limits::{MAX_ACTORS, MAX_DAYS, MAX_NAME, MAX_RATE};
pub use pair::{Pair, keeps, stands_in};
pub use pricing::{is_order, keeps_pairs, pay};
pub use scene::{Actor, Scene};
