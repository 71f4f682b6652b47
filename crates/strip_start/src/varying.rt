// Variation of an order, in several runs of simulated annealing.
ghost use Rattle.std.specs.Prelude.{◌≡◌, ◌≤◌, ◌⊎◌, ◌∷◌, All};
ghost use Rattle.strip_film.specs.Path.{IsComplete};
ghost use Rattle.strip_film.specs.Shown.{path_data};
ghost use Rattle.strip_start.specs.Runs.{IsCheapest, IsRunFrom};

use crate::annealing::anneal;
use crate::cooling::{Cooling, TRIES_A_ROUND};
use crate::draws::Draws;
use strip_film::{Film, Path};

/// Maximum number of runs.
pub(crate) const MAX_RUNS: usize = 16;

/// Varies a path by simulated annealing in search of a cheaper one, with `tries` random changes.
///
/// There is one run for each 100,000 tries, at least one and at most 16. Each run begins with the given path, and draws
/// its changes from its own stream, which is the same for every film. A single run cools evenly over its tries; several
/// runs go in rounds of 100,000 tries.
///
/// Returns the cheapest path found, of the first run if several find one, or the given path if none is cheaper. It
/// allocates no memory. Each try takes time linear in the number of scenes.
pub fn vary(film: &Film, start: &Path, tries: u32) -> Path
    requires { IsComplete film.now (path_data start.now) }
    ensures complete { IsComplete film.now (path_data result) }
    ensures no_dearer { (path_data result).paid ≤ (path_data start.now).paid }
    ensures untried { tries ≡ 0 → path_data result ≡ path_data start.now }
{
    let mut paths = [*start; MAX_RUNS];
    let paths = &mut paths[..run_count(tries)];
    make_runs(film, start, tries, paths);
    cheapest(start, paths)
}

/// Makes the runs in turn, one for each place of `paths`.
fn make_runs(film: &Film, start: &Path, tries: u32, paths: &mut [Path])
    requires { IsComplete film.now (path_data start.now) }
    ensures { All (λ path. IsRunFrom film.now (path_data start.now) tries (path_data path)) paths.new }
{
    for run in 0..paths.len() {
        paths[run] = make_run(film, start, tries, run);
    }
}

/// Returns the number of runs for `tries` tries: one for each whole round, at least 1 and at most 16.
pub(crate) fn run_count(tries: u32) -> usize
    ensures { (1 ≤ result) × (result ≤ MAX_RUNS) }
{
    ((tries / TRIES_A_ROUND) as usize).clamp(1, MAX_RUNS)
}

/// Makes the run of this number, 0 for the first, if all runs together have `tries` tries.
pub(crate) fn make_run(film: &Film, start: &Path, tries: u32, run: usize) -> Path
    requires { IsComplete film.now (path_data start.now) }
    ensures { IsRunFrom film.now (path_data start.now) tries (path_data result) }
{
    let mut draws = Draws::of_run(run);
    if run_count(tries) == 1 {
        anneal(film, start, tries, Cooling::Even(tries), &mut draws)
    } else {
        make_rounds(film, start, share(tries, run), &mut draws)
    }
}

/// Makes one of several runs, in rounds of 100,000 tries. Each round begins with the path of the round before. The last
/// round may be shorter, but it cools as a whole one, so a longer run begins with the same changes.
fn make_rounds(film: &Film, start: &Path, tries: u32, draws: &mut Draws) -> Path
    requires { IsComplete film.now (path_data start.now) }
    ensures { IsRunFrom film.now (path_data start.now) tries (path_data result) }
{
    let mut best = *start;
    let mut left = tries;
    while left > 0 {
        let round = left.min(TRIES_A_ROUND);
        best = anneal(film, &best, round, Cooling::InHalves, draws);
        left -= round;
    }
    best
}

/// Returns the run's number of tries: an equal share, and one more in the first runs if a remainder is left.
fn share(tries: u32, run: usize) -> u32
    ensures { result ≤ tries }
{
    let runs = run_count(tries) as u32;
    if run < (tries % runs) as usize {
        tries / runs + 1
    } else {
        tries / runs
    }
}

/// Returns the cheapest of the given path and the runs' paths, or the first of them if several pay the same.
pub(crate) fn cheapest(start: &Path, paths: &[Path]) -> Path
    ensures { IsCheapest (start.now ∷ paths.now) result }
{
    let mut best = *start;
    for path in paths {
        best = cheaper(path, &best);
    }
    best
}

/// Returns the path that pays less, or `known` if they pay the same.
fn cheaper(found: &Path, known: &Path) -> Path
    ensures either { (result ≡ found.now) ⊎ (result ≡ known.now) }
    ensures no_dearer { ((path_data result).paid ≤ (path_data found.now).paid) × ((path_data result).paid ≤ (path_data known.now).paid) }
{
    if found.paid() < known.paid() {
        *found
    } else {
        *known
    }
}
