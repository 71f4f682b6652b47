//! The answer of a program: an exit status, a text to print, or the row of a fault. It depends on no command, so any
//! program of this repository can end with it. The input files of jobs, a film's file and a plan's, are each loaded and
//! read, or refused by an answer with their fault.
//!
//! A law is a function that does nothing when it runs: its contract is a theorem that a caller obtains by calling it.
#![tactic(auto)]

mod answer;
mod both;
mod ending;
mod film;
mod input;
pub mod laws;
mod plan;
mod status;

pub use answer::{Answer, told_row};
pub use both::{PlanJob, answer_plan, both_inputs};
pub use ending::{Stop, finish};
pub use film::{MAX_FILM, film_input};
pub use input::{Input, too_many_classes};
pub use plan::{MAX_PLAN, plan_input};
pub use status::Status;
