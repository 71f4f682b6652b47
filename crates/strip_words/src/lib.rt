//! The command line: words are read into a job, with its files and options. A law is a function that does nothing when
//! it runs: its contract is a theorem that a caller obtains by calling it.
#![tactic(auto)]

mod command;
mod effort;
mod fault;
mod films;
mod item;
mod jobs;
pub mod laws;
mod making;
mod naming;
mod number;
mod options;
mod plans;
mod reader;
mod solve;

pub use fault::WordsFault;
pub use films::FilmFile;
pub use jobs::Job;
pub use making::{GenJob, TrialJob};
pub use naming::job;
pub use plans::{PlanFiles, plan_files};
pub use solve::SolveJob;
