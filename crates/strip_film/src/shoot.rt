// Step costs and ready scenes, while a set of scenes remains.
ghost use Rattle.std.specs.Prelude.{◌≡◌, ◌+◌, ◌*◌, ◌<◌, true, length, slice_index};
ghost use Rattle.strip_mask.specs.Set.{LiesBelow, has, minus, sum_over};
ghost use Rattle.strip_film.specs.Film.{LiesIn};
ghost use Rattle.strip_film.specs.Shoot.{cast_of, on_location, ready, step_cost};

use crate::film::Film;
use strip_mask::{Mask, sum_over};

/// Returns the actors who work in some scene of the set, as a set of actor numbers. Time is linear in the size of the
/// set.
pub fn cast_of(film: &Film, q: Mask) -> Mask
    requires { LiesIn film.now q.0 }
    ensures { result.0 ≡ cast_of film.now q.0 }
{
    let casts = film.casts();
    let mut cast = Mask(0);
    for scene in q.iter() {
        cast = cast.union(Mask(casts[scene as usize]));
    }
    cast
}

/// Returns the actors on location while the set remains: those who work in a scene of it and in one outside it. Time is
/// linear in the film's number of scenes.
pub fn on(film: &Film, q: Mask) -> Mask
    requires { LiesIn film.now q.0 }
    ensures { result.0 ≡ on_location film.now q.0 }
{
    cast_of(film, q).meet(cast_of(film, film.all().minus(q)))
}

/// Returns the cost, in units of money, of shooting scene `s` next while the set remains. The cost is the scene's days,
/// at the rates of its cast and the hold rates of the others on location. Time is linear in the numbers of scenes and
/// of actors who are paid.
pub fn step(film: &Film, q: Mask, s: u32) -> u64
    requires lies { LiesIn film.now q.0 }
    requires remains { has q.0 s ≡ true }
    ensures { result ≡ step_cost film.now q.0 s }
{
    film.keeps_limits();
    step_with(film, on(film, q), s)
}

/// Returns the same cost as `step`, given the actors on location. Time is linear in the number of actors who are paid.
pub fn step_with(film: &Film, on: Mask, s: u32) -> u64
    requires known { s < length film.now.casts }
    requires actors { LiesBelow (length film.now.rates) on.0 }
    ensures { result ≡ slice_index film.now.days s * (sum_over film.now.rates (slice_index film.now.casts s)
        + sum_over film.now.holds (minus on.0 (slice_index film.now.casts s))) }
{
    film.keeps_limits();
    let cast = Mask(film.casts()[s as usize]);
    let waiting = on.minus(cast);
    let (rates, holds) = (film.rates(), film.holds());
    film.days()[s as usize] * (sum_over(rates, cast) + sum_over(holds, waiting))
}

/// Returns the ready scenes of the set: those that no pair puts after another scene of it. Time is linear in the size
/// of the set, but constant if the film has no pairs.
pub fn ready(film: &Film, q: Mask) -> Mask
    requires { LiesIn film.now q.0 }
    ensures { result.0 ≡ ready film.now q.0 }
{
    if film.pairs().is_empty() {
        return q;
    }
    film.keeps_limits();
    let mut ready = Mask(0);
    for scene in q.iter() {
        if film.before(scene).meet(q).is_empty() {
            ready = ready.with(scene);
        }
    }
    ready
}
