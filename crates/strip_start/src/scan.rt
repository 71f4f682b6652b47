// Places to which one scene of an order can be moved.
ghost use Rattle.std.specs.Prelude.{◌≡◌, ◌↔◌, ℕ, ◌+◌, ◌<◌, ◌≤◌, ◌^◌, None, length, slice_index, IfSome, IsTrue};
ghost use Rattle.strip_mask.specs.Set.{LiesBelow};
ghost use Rattle.strip_model.specs.Pairs.{Precedes};
ghost use Rattle.strip_film.specs.Path.{IsComplete};
ghost use Rattle.strip_film.specs.Shown.{path_data};
ghost use Rattle.strip_start.specs.Moves.{IsBetter};
ghost use Rattle.strip_start.specs.Scan.{IsFirstPlace, NoPlace};
ghost use Rattle.strip_start.specs.Sides.{AreSides, turn_cost, wait_cost};

use crate::sides::Sides;
use strip_film::{Film, MAX_COUNT, Path};
use strip_mask::{Mask, sum_over};

/// Finds the first place to which the scene at place `from` is better moved, or none. Time is linear in the path's
/// length, plus the actors who come or go between two scenes.
pub(crate) fn first_place(film: &Film, path: &Path, sides: &Sides, from: usize) -> Option<usize>
    requires complete { IsComplete film.now (path_data path.now) }
    requires sides { AreSides film.now (path_data path.now).scenes sides.now }
    requires place { from < length (path_data path.now).scenes }
    ensures some { IfSome result (IsFirstPlace film.now (path_data path.now).scenes from) }
    ensures none { result ≡ None → NoPlace film.now (path_data path.now).scenes from 0
        (length (path_data path.now).scenes) }
{
    match earlier_place(film, path, sides, from) {
        Some(to) => Some(to),
        None => later_place(film, path, sides, from),
    }
}

/// Finds the first better place before `from`. The scene is moved to the front, past one scene after another, until a
/// pair forbids it.
fn earlier_place(film: &Film, path: &Path, sides: &Sides, from: usize) -> Option<usize>
    requires complete { IsComplete film.now (path_data path.now) }
    requires sides { AreSides film.now (path_data path.now).scenes sides.now }
    requires place { from < length (path_data path.now).scenes }
    ensures some { IfSome result (IsFirstPlace film.now (path_data path.now).scenes from) }
    ensures none { result ≡ None → NoPlace film.now (path_data path.now).scenes from 0 from }
{
    film.keeps_limits();
    let scenes = path.scenes();
    let scene = scenes[from] as u32;
    let mut best = None;
    let mut cost = path.paid();
    let mut behind = Mask(sides.behind[from]);
    for to in (0..from).rev() {
        let other = scenes[to] as u32;
        if precedes(film, other, scene) {
            return best;
        }
        cost = turned(film, cost, Mask(sides.before[to]), behind, other, scene);
        behind = Mask(film.casts()[other as usize]).union(behind);
        if cost < path.paid() {
            best = Some(to);
        }
    }
    best
}

/// Finds the first better place behind `from`. The scene is moved to the end, past one scene after another, until a
/// pair forbids it.
fn later_place(film: &Film, path: &Path, sides: &Sides, from: usize) -> Option<usize>
    requires complete { IsComplete film.now (path_data path.now) }
    requires sides { AreSides film.now (path_data path.now).scenes sides.now }
    requires place { from < length (path_data path.now).scenes }
    requires earlier { NoPlace film.now (path_data path.now).scenes from 0 from }
    ensures some { IfSome result (IsFirstPlace film.now (path_data path.now).scenes from) }
    ensures none { result ≡ None → NoPlace film.now (path_data path.now).scenes from 0
        (length (path_data path.now).scenes) }
{
    film.keeps_limits();
    let scenes = path.scenes();
    let scene = scenes[from] as u32;
    let mut cost = path.paid();
    let mut before = Mask(sides.before[from]);
    for to in from + 1..scenes.len() {
        let other = scenes[to] as u32;
        if precedes(film, scene, other) {
            return None;
        }
        cost = turned(film, cost, before, Mask(sides.behind[to]), scene, other);
        before = before.union(Mask(film.casts()[other as usize]));
        if cost < path.paid() {
            return Some(to);
        }
    }
    None
}

/// Returns whether a pair puts the first scene before the other.
fn precedes(film: &Film, first: u32, then: u32) -> bool
    requires first { first < MAX_COUNT }
    requires then { then < MAX_COUNT }
    ensures { IsTrue result ↔ Precedes film.now.pairs first then }
{
    film.before(then).has(first)
}

/// Returns the cost of an order after two adjacent scenes are swapped. It costs `cost` with `first` before `second`.
/// `before` and `behind` are the actors who work before and behind the two.
fn turned(film: &Film, cost: u64, before: Mask, behind: Mask, first: u32, second: u32) -> u64
    requires first { first < length film.now.casts }
    requires second { second < length film.now.casts }
    requires cost { cost < 2 ^ 63 }
    requires enough { turn_cost film.now before.0 behind.0 first second ≤ cost
        + turn_cost film.now before.0 behind.0 second first }
    ensures { result + turn_cost film.now before.0 behind.0 first second ≡ cost
        + turn_cost film.now before.0 behind.0 second first }
{
    cost + turn_cost(film, before, behind, second, first)
        - turn_cost(film, before, behind, first, second)
}

/// Returns the part of two adjacent scenes' cost that depends on which comes first. `before` and `behind` are the
/// actors who work before and behind the two. Time is linear in the number of actors who wait only for that reason.
fn turn_cost(film: &Film, before: Mask, behind: Mask, first: u32, second: u32) -> u64
    requires first { first < length film.now.casts }
    requires second { second < length film.now.casts }
    ensures cost { result ≡ turn_cost film.now before.0 behind.0 first second }
    ensures small { result < 2 ^ 62 }
{
    film.keeps_limits();
    let casts = film.casts();
    let leaving = Mask(casts[second as usize]).meet(before.minus(behind));
    let coming = Mask(casts[first as usize]).meet(behind.minus(before));
    wait_cost(film, leaving, first) + wait_cost(film, coming, second)
}

/// Returns the pay for waiting of those actors of the set who wait through the scene.
fn wait_cost(film: &Film, actors: Mask, scene: u32) -> u64
    requires scene { scene < length film.now.casts }
    requires actors { LiesBelow (length film.now.rates) actors.0 }
    ensures cost { result ≡ wait_cost film.now actors.0 scene }
    ensures small { result < 2 ^ 61 }
{
    film.keeps_limits();
    let waiting = actors.minus(Mask(film.casts()[scene as usize]));
    film.days()[scene as usize] * sum_over(film.holds(), waiting)
}
