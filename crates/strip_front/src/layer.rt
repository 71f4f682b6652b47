// Layers of paths with equal numbers of scenes.
ghost use Rattle.std.specs.Prelude.{◌≡◌, [], All, fold, IfOk};
ghost use Rattle.std.specs.List.{flat_map};
ghost use Rattle.strip_film.specs.Path.{IsPath};
ghost use Rattle.strip_paths.specs.Paths.{paths_after, with_path};
ghost use Rattle.strip_paths.specs.Shown.{paths_of};
ghost use Rattle.strip_front.specs.Layers.{layer};

use std::alloc::Global;
use strip_film::{Film, Path};
use strip_io::Memory;
use strip_paths::{PathsBySet, put_paths_after};

/// Makes layer 0: the empty path.
pub(crate) fn first_layer(alloc: Global, film: &Film) -> Result<PathsBySet, Memory>
    ensures { IfOk result (λ first. paths_of first ≡ layer film.now 0) }
{
    let mut first = PathsBySet::new(alloc);
    first.put(&Path::start(film))?;
    Ok(first)
}

/// Makes the next layer: the successors of the paths of the layer `before`.
pub(crate) fn layer_after(
    alloc: Global,
    film: &Film,
    before: &PathsBySet,
) -> Result<PathsBySet, Memory>
    requires paths { All (IsPath film.now) (paths_of before.now) }
    ensures { IfOk result (λ after. paths_of after ≡ fold with_path []
        (flat_map (paths_after film.now) (paths_of before.now))) }
{
    let mut after = PathsBySet::new(alloc);
    for path in before.paths() {
        put_paths_after(film, path, &mut after)?;
    }
    Ok(after)
}
