// Search for the next step of a reduction.
ghost use Rattle.std.specs.Bool.{beq};
ghost use Rattle.std.specs.Prelude.{◌≡◌, ℕ, ◌<◌, ◌≤◌, ◌==◌, nat_le, ◌&&◌, false, [], length, slice_index_or, All};
ghost use Rattle.strip_mask.specs.Set.{has};
ghost use Rattle.strip_model.specs.Pairs.{IsKnownPair};
ghost use Rattle.strip_film.specs.Film.{film_data};
ghost use Rattle.strip_reduce.specs.Reduction.{least_below, least_behind, least_two};
ghost use Rattle.strip_reduce.specs.Steps.{can_drop, can_join_actors, can_join_scenes, is_paired, scene_count};
ghost use Rattle.strip_reduce.specs.Search.{can_join_marked, NoTwoBelow};

use strip_mask::Mask;
use strip_model::{MAX_SCENES, Pair};

/// Finds the least actor whose pay is equal in every order: his hold rate is 0, or he works in fewer than two scenes.
pub(crate) fn droppable(casts: &[u64], holds: &[u64]) -> Option<usize>
    requires { length holds.now ≤ 64 }
    ensures { result ≡ least_below (length holds.now) (can_drop (film_data casts.now [] [] holds.now [])) }
{
    let twice = working_twice(casts);
    for (actor, hold) in holds.iter().enumerate() {
        if *hold == 0 || !twice.has(actor as u32) {
            return Some(actor);
        }
    }
    None
}

/// Returns the actors who work in two scenes or more.
fn working_twice(casts: &[u64]) -> Mask
    ensures { (actor : ℕ) → has result.0 actor ≡ nat_le 2 (scene_count (film_data casts.now [] [] [] []) actor) }
{
    let mut once = Mask(0);
    let mut twice = Mask(0);
    for cast in casts {
        twice = twice.union(once.meet(Mask(*cast)));
        once = once.union(Mask(*cast));
    }
    twice
}

/// Finds the first two scenes that can be joined. No scene below `from` can be joined with a later one.
pub(crate) fn joinable_scenes(casts: &[u64], pairs: &[Pair], from: usize) -> Option<(usize, usize)>
    requires few { length casts.now ≤ 200 }
    requires known { All (IsKnownPair 200) pairs.now }
    requires none_before { NoTwoBelow from (length casts.now)
        (can_join_scenes (film_data casts.now [] [] [] pairs.now)) }
    ensures { result ≡ least_two (length casts.now) (can_join_scenes (film_data casts.now [] [] [] pairs.now)) }
{
    equal_scenes(casts, &paired(pairs), from)
}

/// Marks the scenes that stand in a pair.
fn paired(pairs: &[Pair]) -> [bool; MAX_SCENES]
    requires { All (IsKnownPair 200) pairs.now }
    ensures { (scene : ℕ) → slice_index_or result scene false ≡ is_paired pairs.now scene }
{
    let mut marks = [false; MAX_SCENES];
    for pair in pairs {
        marks[pair.first as usize] = true;
        marks[pair.then as usize] = true;
    }
    marks
}

/// Finds the first two unmarked scenes with equal casts. No scene below `from` is the first of two.
fn equal_scenes(casts: &[u64], marks: &[bool; MAX_SCENES], from: usize) -> Option<(usize, usize)>
    requires few { length casts.now ≤ 200 }
    requires none_before { NoTwoBelow from (length casts.now) (can_join_marked casts.now marks.now) }
    ensures { result ≡ least_two (length casts.now) (can_join_marked casts.now marks.now) }
{
    for a in from..casts.len() {
        if let Some(b) = equal_behind(casts, marks, a) {
            return Some((a, b));
        }
    }
    None
}

/// Finds the first unmarked scene after `a` with the cast of `a`, or none if `a` is marked.
fn equal_behind(casts: &[u64], marks: &[bool; MAX_SCENES], a: usize) -> Option<usize>
    requires few { length casts.now ≤ 200 }
    requires scene { a < length casts.now }
    ensures { result ≡ least_behind (length casts.now) (can_join_marked casts.now marks.now) a }
{
    if marks[a] {
        return None;
    }
    for b in a + 1..casts.len() {
        if casts[b] == casts[a] && !marks[b] {
            return Some(b);
        }
    }
    None
}

/// Finds the first two actors who work in the same scenes. No actor below `from` works in the same scenes as a later
/// one.
pub(crate) fn joinable_actors(casts: &[u64], actors: usize, from: usize) -> Option<(usize, usize)>
    requires few { actors ≤ 64 }
    requires none_before { NoTwoBelow from actors (can_join_actors (film_data casts.now [] [] [] [])) }
    ensures { result ≡ least_two actors (can_join_actors (film_data casts.now [] [] [] [])) }
{
    for a in from..actors {
        if let Some(b) = alike_behind(casts, a, actors) {
            return Some((a, b));
        }
    }
    None
}

/// Finds the first actor after `a` who works in the same scenes.
fn alike_behind(casts: &[u64], a: usize, actors: usize) -> Option<usize>
    requires few { actors ≤ 64 }
    requires actor { a < actors }
    ensures { result ≡ least_behind actors (can_join_actors (film_data casts.now [] [] [] [])) a }
{
    let alike = working_alike(casts, a as u32);
    for b in a + 1..actors {
        if alike.has(b as u32) {
            return Some(b);
        }
    }
    None
}

/// Returns the actors who work in the same scenes as this actor.
fn working_alike(casts: &[u64], actor: u32) -> Mask
    requires { actor < 64 }
    ensures { (other : ℕ) → other < 64 → has result.0 other
        ≡ can_join_actors (film_data casts.now [] [] [] []) actor other }
{
    let mut alike = Mask::below(64);
    for cast in casts {
        alike = narrowed(alike, Mask(*cast), actor);
    }
    alike
}

/// Keeps the actors of the set who are in the cast if this actor is in it, else those who are not.
fn narrowed(set: Mask, cast: Mask, actor: u32) -> Mask
    requires { actor < 64 }
    ensures { (other : ℕ) → has result.0 other ≡ (has set.0 other && beq (has cast.0 actor) (has cast.0 other)) }
{
    if cast.has(actor) {
        set.meet(cast)
    } else {
        set.minus(cast)
    }
}
