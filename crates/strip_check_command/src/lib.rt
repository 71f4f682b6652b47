//! The program `stripcheck` over any files and output sink. It reads a film's file and a plan's file, and accepts the
//! plan if its lines justify its bound. It depends on no code of the search.
#![tactic(auto)]

mod auditing;
mod program;

pub use auditing::audit;
pub use program::report;
