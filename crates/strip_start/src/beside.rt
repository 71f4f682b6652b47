// Simulated annealing by several workers.
ghost use Rattle.std.specs.Prelude.{◌≡◌, ◌<◌, ◌≤◌};
ghost use Rattle.strip_film.specs.Path.{IsComplete};
ghost use Rattle.strip_film.specs.Shown.{path_data};

use crate::varying::{MAX_RUNS, cheapest, make_run, run_count};
use std::thread;
use std::thread::Threads;
use strip_film::{Film, Path};

/// Varies a path as `vary` does, with runs in at most `workers` threads at once. The result is the same for any number
/// of workers, since runs do not depend on each other. If no thread can be started, the caller makes the runs.
pub fn vary_beside<R: Threads + Sync>(
    rt: &R,
    film: &Film,
    start: &Path,
    tries: u32,
    workers: u32,
) -> Path
    requires complete { IsComplete film.now (path_data start.now) }
    requires workers { 0 < workers }
    ensures complete { IsComplete film.now (path_data result) }
    ensures no_dearer { (path_data result).paid ≤ (path_data start.now).paid }
    ensures untried { tries ≡ 0 → path_data result ≡ path_data start.now }
{
    let mut paths = [*start; MAX_RUNS];
    let paths = &mut paths[..run_count(tries)];
    thread::for_each_mut(
        rt,
        paths,
        workers as usize,
        &|run, path| {
            *path = make_run(film, start, tries, run);
        },
    );
    cheapest(start, paths)
}
