//! Parallel branch and bound: several workers search in threads (a crew, in a race). Each has a hub, its view of the
//! search state (hand), made of its passes, the ghost tokens of its knowledge about the shared state. Parts come from a
//! shared counter or from work-stealing queues. Workers can also compute static bounds in parallel for a search by
//! layers.
#![tactic(auto)]

mod answering;
mod asked;
mod calls;
mod hub;
mod job;
mod lent;
mod passes;
mod queues;
mod racing;
mod rooted;
mod source;
mod sources;
mod tables;
mod working;

pub use answering::{Beside, answer_beside};
pub use hub::{Hub, HubParts};
pub use lent::Race;
pub use racing::race;
pub use rooted::Rooted;
pub use source::{Gatherer, Source};
