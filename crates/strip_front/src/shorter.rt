// The paths shorter than the tasks, in the order of the search.
ghost use Rattle.std.specs.Prelude.{◌≡◌, ◌≢◌, ◌↔◌, ◌++◌, ◌+◌, ◌<◌, ◌≤◌, ℕ, List, All, Contains, IsTrue, IfOk, length, map};
ghost use Rattle.std.specs.List.{AllPairs};
ghost use Rattle.strip_model.specs.Film.{FilmData};
ghost use Rattle.strip_film.specs.Film.{LiesIn};
ghost use Rattle.strip_film.specs.Path.{IsPath, PathData};
ghost use Rattle.strip_film.specs.Rules.{rank};
ghost use Rattle.strip_film.specs.Shown.{path_data, turns_data};
ghost use Rattle.strip_film.specs.Turns.{GoBy};
ghost use Rattle.strip_rule.specs.Rule.{open_firsts};
ghost use Rattle.strip_lines.specs.Lines.{rules_of};
ghost use Rattle.strip_paths.specs.Shown.{paths_of};
ghost use Rattle.strip_front.specs.Front.{AreShorter, IsDepth};
ghost use Rattle.strip_front.specs.Layers.{layer};
ghost use Rattle.strip_front.specs.Onward.{AreOnward};

use crate::layer::{first_layer, layer_after};
use std::alloc::Global;
use strip_bound::{Bounds, rank};
use strip_film::{MAX_COUNT, Path, Turns};
use strip_io::Memory;
use strip_mask::Mask;
use strip_paths::PathsBySet;
use strip_rule::open_firsts;

/// Returns the paths with fewer than `depth` scenes, each before its successors, and the last of their layers. It calls
/// the stored bound for each open first of each path, except for the paths of the last layer.
pub(crate) fn shorter_paths<B: Bounds>(
    alloc: Global,
    bounds: &B,
    depth: usize,
) -> Result<(Vec<Path>, PathsBySet), Memory>
    requires depth { IsDepth B.film depth }
    ensures shorter { IfOk result (λ both. AreShorter (rules_of B.kind B.film) depth
        (map path_data both.0.items)) }
    ensures last { IfOk result (λ both. (before : ℕ) → depth ≡ before + 1
        → paths_of both.1 ≡ layer B.film before) }
{
    let film = bounds.film();
    film.keeps_limits();
    let mut last = first_layer(alloc, film)?;
    let mut shorter = last.paths().to_vec(alloc)?;
    for count in 1..depth {
        last = layer_after(alloc, film, &last)?;
        shorter = with_layer(alloc, bounds, &shorter, &last, count)?;
    }
    Ok((shorter, last))
}

/// Inserts the paths of the next layer, of `count` scenes, into the list of shorter paths, each behind its predecessor.
fn with_layer<B: Bounds>(
    alloc: Global,
    bounds: &B,
    shorter: &[Path],
    next: &PathsBySet,
    count: usize,
) -> Result<Vec<Path>, Memory>
    requires some { 1 ≤ count }
    requires most { count < length B.film.casts }
    requires shorter { AreShorter (rules_of B.kind B.film) count (map path_data shorter.now) }
    requires layer { paths_of next.now ≡ layer B.film count }
    ensures { IfOk result (λ paths. AreShorter (rules_of B.kind B.film) (count + 1)
        (map path_data paths.items)) }
{
    bounds.film().keeps_limits();
    let mut paths = Vec::new(alloc);
    for path in shorter {
        paths.push(*path)?;
        if path.scenes().len() + 1 == count {
            push_kept(bounds, path, next, &mut paths)?;
        }
    }
    Ok(paths)
}

/// Appends the layer's successors of this path, by rank.
fn push_kept<B: Bounds>(
    bounds: &B,
    path: &Path,
    layer: &PathsBySet,
    paths: &mut Vec<Path>,
) -> Result<(), Memory>
    requires path { IsPath B.film (path_data path.now) }
    requires layer { All (IsPath B.film) (paths_of layer.now) }
    requires apart { AllPairs (λ a b. a.rest ≢ b.rest) (paths_of layer.now) }
    ensures { IfOk result (λ _. (more : List PathData)
        × (map path_data paths.new.items ≡ map path_data paths.old.items ++ more)
        × AreOnward (rules_of B.kind B.film) (paths_of layer.now) (path_data path.now) more) }
{
    let film = bounds.film();
    film.keeps_limits();
    let mut turns = turns_of(bounds, path.rest());
    while let Some(scene) = turns.take_next() {
        let longer = path.extend(film, scene);
        if has(layer, &longer) {
            paths.push(longer)?;
        }
    }
    Ok(())
}

/// Returns whether the list has a path along the same scenes.
fn has(paths: &PathsBySet, path: &Path) -> bool
    ensures { (film : FilmData) → All (IsPath film) (paths_of paths.now)
        → AllPairs (λ a b. a.rest ≢ b.rest) (paths_of paths.now)
        → IsPath film (path_data path.now) → IsTrue result ↔ Contains (paths_of paths.now) (path_data path.now) }
{
    match paths.place_of(path.rest()) {
        Some(place) => paths.paths()[place].scenes() == path.scenes(),
        None => false,
    }
}

/// Returns the open firsts of a set in the order of their ranks. It calls the stored bound once for each.
fn turns_of<B: Bounds>(bounds: &B, rest: Mask) -> Turns
    requires lies { LiesIn B.film rest.0 }
    ensures left { (turns_data result).left ≡ open_firsts B.film rest.0 }
    ensures by_rank { GoBy (rank (rules_of B.kind B.film) rest.0) (turns_data result) }
{
    let film = bounds.film();
    film.keeps_limits();
    let firsts = open_firsts(film, rest);
    let mut ranks = [0; MAX_COUNT];
    for first in firsts.iter() {
        ranks[first as usize] = rank(bounds, rest, first);
    }
    Turns::of(firsts, &ranks)
}
