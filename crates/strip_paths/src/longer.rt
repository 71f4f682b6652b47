// Successors of a path.
ghost use Rattle.std.specs.Prelude.{◌≡◌, true, fold, IfOk};
ghost use Rattle.strip_mask.specs.Set.{has};
ghost use Rattle.strip_film.specs.Path.{IsPath, extended};
ghost use Rattle.strip_film.specs.Shoot.{on_location, ready};
ghost use Rattle.strip_film.specs.Shown.{path_data};
ghost use Rattle.strip_paths.specs.Paths.{paths_after, with_path};
ghost use Rattle.strip_paths.specs.Shown.{paths_of};

use crate::by_set::PathsBySet;
use strip_film::{Film, Path, on, step_with};
use strip_io::Memory;
use strip_mask::Mask;
use strip_rule::open_firsts_with;

/// Puts the open successors of the path, with one scene more, into the list. It fails only if memory runs out.
pub fn put_paths_after(film: &Film, path: &Path, paths: &mut PathsBySet) -> Result<(), Memory>
    requires path { IsPath film.now (path_data path.now) }
    ensures { IfOk result (λ _. paths_of paths.new ≡ fold with_path (paths_of paths.old)
        (paths_after film.now (path_data path.now))) }
{
    film.keeps_limits();
    let rest = path.rest();
    let on = on(film, rest);
    for scene in open_firsts_with(film, rest, on).iter() {
        put_longer(film, path, on, scene, paths)?;
    }
    Ok(())
}

/// Puts the path extended by this scene into the list. Mostly the list has a path with the same set that is no dearer;
/// then no path is made.
fn put_longer(
    film: &Film,
    path: &Path,
    on: Mask,
    scene: u32,
    paths: &mut PathsBySet,
) -> Result<(), Memory>
    requires path { IsPath film.now (path_data path.now) }
    requires on { on.0 ≡ on_location film.now (path_data path.now).rest }
    requires ready { has (ready film.now (path_data path.now).rest) scene ≡ true }
    ensures { IfOk result (λ _. paths_of paths.new ≡ with_path (paths_of paths.old) (extended film.now
        (path_data path.now) scene)) }
{
    film.keeps_limits();
    let step = step_with(film, on, scene);
    if paths.has_as_cheap(path.rest().without(scene), path.paid() + step) {
        return Ok(());
    }
    paths.put(&path.extend_with(film, scene, step))?;
    Ok(())
}
