//! Laws of the initial order: functions that do nothing when they run, with theorems as contracts.
ghost use Rattle.std.specs.Prelude.{◌≡◌, ℕ, ◌<◌, ◌≤◌, List, length, slice_index};
ghost use Rattle.strip_model.specs.Film.{FilmData};
ghost use Rattle.strip_film.specs.Film.{all_scenes};
ghost use Rattle.strip_film.specs.Finish.{EachOnce, steps_cost};
ghost use Rattle.strip_start.specs.Greedy.{IsGreedy};
ghost use Rattle.strip_start.specs.Moves.{IsImproved, moved, taken_out};

/// The greedy order of a film's scenes is unique.
pub fn the_greedy_order_is_one()
    ensures { (film : FilmData) (a b : List ℕ) → IsGreedy film a → IsGreedy film b
        → EachOnce film (all_scenes film) a → EachOnce film (all_scenes film) b → a ≡ b }
{}

/// A move takes one scene to a place and keeps the order of the others. So moving it back restores the order, and
/// moving a scene to its own place changes nothing.
pub fn a_move_takes_one_scene_to_a_place()
    ensures stands { (order : List ℕ) (from to : ℕ) → from < length order → to < length order
        → slice_index (moved order from to) to ≡ slice_index order from }
    ensures others { (order : List ℕ) (from to : ℕ) → from < length order → to < length order
        → taken_out to (moved order from to) ≡ taken_out from order }
    ensures back { (order : List ℕ) (from to : ℕ) → from < length order → to < length order
        → moved (moved order from to) to from ≡ order }
    ensures nowhere { (order : List ℕ) (place : ℕ) → place < length order → moved order place place ≡ order }
{}

/// The improvement of an order is unique. It keeps the pairs if the order does, and never costs more.
pub fn an_order_is_improved_in_one_way()
    ensures one { (film : FilmData) (order a b : List ℕ) → IsImproved film order a → IsImproved film order b → a ≡ b }
    ensures kept { (film : FilmData) (order best : List ℕ) → IsImproved film order best
        → EachOnce film (all_scenes film) order
        → EachOnce film (all_scenes film) best }
    ensures no_dearer { (film : FilmData) (order best : List ℕ) → IsImproved film order best
        → steps_cost film (all_scenes film) best ≤ steps_cost film (all_scenes film) order }
{}
