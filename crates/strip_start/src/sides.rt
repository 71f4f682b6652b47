// The actors who work before and behind each place of an order.
ghost use Rattle.std.specs.Prelude.{◌≡◌, ℕ, ◌+◌, ◌<◌, ◌≤◌, All, length, take, drop, slice_index};
ghost use Rattle.strip_start.specs.Sides.{AreSides, cast_along};

use strip_film::{Film, MAX_COUNT};
use strip_mask::Mask;

/// For each place of an order, the actors who work in the scenes before it, and in those behind it, as sets of actor
/// numbers.
#[derive(Clone, Copy, Debug)]
pub(crate) struct Sides {
    pub(crate) before: [u64; MAX_COUNT],
    pub(crate) behind: [u64; MAX_COUNT],
}

impl Sides {
    /// Makes the sides of a list of at most 64 scenes. Time is linear in their number.
    pub(crate) fn of(film: &Film, scenes: &[u8]) -> Sides
        requires known { All (λ scene. scene < length film.now.casts) scenes.now }
        requires few { length scenes.now ≤ MAX_COUNT }
        ensures { AreSides film.now scenes.now result }
    {
        Sides {
            before: casts_before(film, scenes),
            behind: casts_behind(film, scenes),
        }
    }
}

fn casts_before(film: &Film, scenes: &[u8]) -> [u64; MAX_COUNT]
    requires known { All (λ scene. scene < length film.now.casts) scenes.now }
    requires few { length scenes.now ≤ MAX_COUNT }
    ensures { (place : ℕ) → place < length scenes.now
        → slice_index result place ≡ cast_along film.now (take place scenes.now) }
{
    let casts = film.casts();
    let mut before = [0; MAX_COUNT];
    let mut cast = Mask(0);
    for place in 0..scenes.len() {
        before[place] = cast.0;
        cast = cast.union(Mask(casts[scenes[place] as usize]));
    }
    before
}

fn casts_behind(film: &Film, scenes: &[u8]) -> [u64; MAX_COUNT]
    requires known { All (λ scene. scene < length film.now.casts) scenes.now }
    requires few { length scenes.now ≤ MAX_COUNT }
    ensures { (place : ℕ) → place < length scenes.now
        → slice_index result place ≡ cast_along film.now (drop (place + 1) scenes.now) }
{
    let casts = film.casts();
    let mut behind = [0; MAX_COUNT];
    let mut cast = Mask(0);
    for place in (0..scenes.len()).rev() {
        behind[place] = cast.0;
        cast = Mask(casts[scenes[place] as usize]).union(cast);
    }
    behind
}
