//! Two atomic words that the workers of a search share: the incumbent cost, of the best order known, and the next part
//! to be claimed. A worker steps on them with a pass, a token of its knowledge. Each call takes one or two atomic
//! steps, and never waits.
#![tactic(auto)]

mod calls;
mod course;
mod least;
mod opening;
mod pass;
mod rule;
mod view;

pub use least::Least;
pub use pass::LeastPass;
