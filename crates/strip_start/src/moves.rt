// Local search by moves of one scene.
ghost use Rattle.std.specs.Prelude.{◌≡◌, ℕ, ◌<◌, ◌≤◌, None, List, length, slice_index, IfSome};
ghost use Rattle.strip_film.specs.Path.{IsComplete};
ghost use Rattle.strip_film.specs.Shown.{path_data};
ghost use Rattle.strip_start.specs.Moves.{IsBetter, IsFirstMove, IsImproved, NoneBetter, moved};

use crate::scan::first_place;
use crate::sides::Sides;
use strip_film::{Film, MAX_COUNT, Path};

/// Maximum number of moves.
const MAX_MOVES: usize = 64;

/// Improves a path by first-improvement local search: takes the first better move, again and again, until no move is
/// better or 64 were taken. A move takes one scene out and puts it back at another place. Moves are tried by the place
/// of the scene, then by its new place. A move is better if the moved order keeps the pairs and costs less. It
/// allocates no memory. Each move takes time quadratic in the number of scenes.
pub fn improve(film: &Film, path: &Path) -> Path
    requires { IsComplete film.now (path_data path.now) }
    ensures complete { IsComplete film.now (path_data result) }
    ensures improved { IsImproved film.now (path_data path.now).scenes (path_data result).scenes }
    ensures no_dearer { (path_data result).paid ≤ (path_data path.now).paid }
{
    let mut best = *path;
    for _turn in 0..MAX_MOVES {
        match first_move(film, &best) {
            Some(found) => best = moved(film, &best, found),
            None => return best,
        }
    }
    best
}

/// A move: the scene at place `from` is taken out and put back, so that it stands at place `to`.
#[derive(Clone, Copy, Debug)]
struct Move {
    from: usize,
    to: usize,
}

/// Finds the first better move of the path's order, or none if no move is better.
fn first_move(film: &Film, path: &Path) -> Option<Move>
    requires { IsComplete film.now (path_data path.now) }
    ensures some { IfSome result (λ found. IsFirstMove film.now (path_data path.now).scenes found.from found.to) }
    ensures none { result ≡ None → NoneBetter film.now (path_data path.now).scenes }
{
    film.keeps_limits();
    let scenes = path.scenes();
    let sides = Sides::of(film, scenes);
    for from in 0..scenes.len() {
        if let Some(to) = first_place(film, path, &sides, from) {
            return Some(Move { from, to });
        }
    }
    None
}

/// Returns the path of the moved order. It takes the time of `Path::extend` for each scene.
fn moved(film: &Film, path: &Path, found: Move) -> Path
    requires complete { IsComplete film.now (path_data path.now) }
    requires better { IsBetter film.now (path_data path.now).scenes found.from found.to }
    ensures complete { IsComplete film.now (path_data result) }
    ensures scenes { (path_data result).scenes ≡ moved (path_data path.now).scenes found.from found.to }
{
    let scenes = path.scenes();
    let mut next = Path::start(film);
    for place in 0..scenes.len() {
        let scene = scenes[place_before(found, place)];
        next = next.extend(film, scene as u32);
    }
    next
}

/// Returns the place, before the move, of the scene at place `place` after it.
fn place_before(found: Move, place: usize) -> usize
    requires { place < MAX_COUNT }
    ensures { (order : List ℕ) → found.from < length order → found.to < length order → place < length order
        → (result < length order) × (slice_index order result ≡ slice_index (moved order found.from found.to) place) }
{
    if place == found.to {
        return found.from;
    }
    let rest = if place > found.to { place - 1 } else { place };
    if rest < found.from { rest } else { rest + 1 }
}
