//! The commands of the program `stripboard`, from words and files to the printed text and the exit status, over any
//! files, output sink and solver. The crate also makes the random instances of the command `gen` from a seed, so that
//! anyone can try the solver on the same film. A law is a function that does nothing when it runs: its contract is a
//! theorem that a caller obtains by calling it.
#![tactic(auto)]

mod answer;
mod arrange;
mod board;
mod convert;
mod drawing;
pub mod laws;
mod making;
mod pricing;
mod program;
mod reports;
mod solve;

pub use drawing::generate;
pub use program::report_by;
