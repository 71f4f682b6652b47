//! The solver `stripboard` over any files and output sink: exact branch and bound by one worker or several, depth-first
//! or by layers, whose best order is printed as a plan with a proved bound. Its calls `run` and `report` carry the main
//! theorem of the program.
#![tactic(auto)]

mod choosing;
mod ending;
mod program;
mod setup;
mod solve;
mod solver;
mod told;

pub use program::{report, run};
pub use solve::{solve_alone, solve_beside, solve_through};
