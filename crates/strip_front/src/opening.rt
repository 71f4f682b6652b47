// Making the front.
ghost use Rattle.std.specs.Prelude.{◌≡◌, ◌≤◌, ℕ, suc, false, None, min, length, replicate, IfOk};
ghost use Rattle.strip_lines.specs.Lines.{rules_of};
ghost use Rattle.strip_paths.specs.Shown.{paths_of};
ghost use Rattle.strip_front.specs.Front.{IsEmptyFront};
ghost use Rattle.strip_front.specs.Layers.{AreTasksOf, layer};
ghost use Rattle.strip_front.specs.Shown.{front_data};

use crate::front::Front;
use crate::layer::layer_after;
use crate::shorter::shorter_paths;
use crate::tasks::by_promise;
use std::alloc::Global;
use strip_bound::Bounds;
use strip_io::Memory;
use strip_paths::PathsBySet;

/// Makes the front of the film, without marked tasks and lines.
///
/// The tasks are paths of `most` scenes, 2 to 4, or of all scenes of a shorter film. For each set that can remain after
/// as many open firsts, there is one cheapest path. Tasks stand by rising promise. Ties keep the order in which paths
/// arise: by rising scenes, each at the place of the first path that leaves its set.
///
/// It copies a few paths for each set that can remain after at most that number of scenes. It asks once for the stored
/// bound of each task and of each shorter path. It fails only if memory runs out.
pub fn make_front<B: Bounds>(alloc: Global, bounds: &B, most: usize) -> Result<Front, Memory>
    requires some { 2 ≤ most }
    requires few { most ≤ 4 }
    ensures empty { IfOk result (λ front. IsEmptyFront (rules_of B.kind B.film) (front_data front)) }
    ensures depth { IfOk result (λ front. (front_data front).depth ≡ min most (length B.film.casts)) }
{
    let film = bounds.film();
    film.keeps_limits();
    let depth = film.scenes().min(most);
    let (shorter, last) = shorter_paths(alloc, bounds, depth)?;
    let tasks = tasks_behind(alloc, bounds, &last)?;
    let paths = PathsBySet::of(alloc, shorter)?;
    unfilled(alloc, depth, tasks, paths)
}

/// Makes the tasks that follow the paths of the layer `last`.
fn tasks_behind<B: Bounds>(
    alloc: Global,
    bounds: &B,
    last: &PathsBySet,
) -> Result<PathsBySet, Memory>
    requires layer { (before : ℕ) × (paths_of last.now ≡ layer B.film before) }
    ensures { (before : ℕ) → paths_of last.now ≡ layer B.film before
        → IfOk result (λ tasks. AreTasksOf (rules_of B.kind B.film) (suc before) (paths_of tasks)) }
{
    let film = bounds.film();
    film.keeps_limits();
    let longest = layer_after(alloc, film, last)?;
    let tasks = by_promise(alloc, bounds, longest.paths())?;
    PathsBySet::of(alloc, tasks)
}

/// Makes the front of these tasks and shorter paths, without marked tasks and lines.
fn unfilled(
    alloc: Global,
    depth: usize,
    tasks: PathsBySet,
    paths: PathsBySet,
) -> Result<Front, Memory>
    ensures { IfOk result (λ front. front_data front ≡ record {
      depth = depth;
      tasks = paths_of tasks;
      wanted = replicate (length (paths_of tasks)) false;
      paths = paths_of paths;
      lines = replicate (length (paths_of paths)) None;
    }) }
{
    Ok(Front {
        depth,
        wanted: vec![in alloc; false; tasks.paths().len()]?,
        lines: vec![in alloc; None; paths.paths().len()]?,
        numbers: vec![in alloc; 0; paths.paths().len()]?,
        tasks,
        paths,
    })
}
