// The jobs that command words name.

use crate::films::FilmFile;
use crate::making::{GenJob, TrialJob};
use crate::plans::PlanFiles;
use crate::solve::SolveJob;

/// The job that the command words name.
#[derive(Drop)]
pub enum Job {
    /// Solve a film.
    Solve(SolveJob),
    /// Price the order of a film's rows.
    Price(FilmFile),
    /// Print the film's text with its scenes in a plan's order.
    Arrange(PlanFiles),
    /// Check a plan.
    Check(PlanFiles),
    /// Write a plan in the newest format.
    Convert(PlanFiles),
    /// Print the Day Out of Days report of a plan's order.
    Dood(PlanFiles),
    /// Print the cost sheet of a plan's order.
    Sheet(PlanFiles),
    /// Print the HTML page of a plan's order.
    Board(PlanFiles),
    /// Print the random film of a seed.
    Gen(GenJob),
    /// Solve the random film of a seed, and check its plan.
    Trial(TrialJob),
}
