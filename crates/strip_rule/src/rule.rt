// The dominance rule, an exchange argument on the scene that is shot next.
ghost use Rattle.std.specs.Prelude.{◌≡◌, ◌↔◌, ℕ, ◌<◌, true, length, slice_index};
ghost use Rattle.std.specs.List.{list_any};
ghost use Rattle.strip_mask.specs.Set.{has, members};
ghost use Rattle.strip_film.specs.Film.{LiesIn};
ghost use Rattle.strip_film.specs.Shoot.{on_location, ready};
ghost use Rattle.strip_rule.specs.Rule.{fits_before, is_part, open_firsts, rules_out};

use strip_film::{Film, on, ready};
use strip_mask::Mask;

/// Returns whether scene `t` rules out scene `s` as the next scene while the set remains. Both must be ready, and all
/// actors on location must work in `t`. Each actor of `t` must be on location or work in `s`. If each would rule out
/// the other, only the one with the lesser number does. Time is linear in the film's number of scenes.
pub fn yields(film: &Film, q: Mask, t: u32, s: u32) -> bool
    requires lies { LiesIn film.now q.0 }
    requires first { has q.0 t ≡ true }
    requires second { has q.0 s ≡ true }
    ensures { result ≡ rules_out film.now q.0 t s }
{
    film.keeps_limits();
    let firsts = ready(film, q);
    firsts.has(t) && firsts.has(s) && goes_before(film, on(film, q), t, s)
}

/// Returns the open firsts: the ready scenes of the set that no scene rules out. If the set isn't empty, one of them
/// begins a least tail. Time is linear in the film's number of scenes, plus the time of `open_firsts_with`.
pub fn open_firsts(film: &Film, q: Mask) -> Mask
    requires { LiesIn film.now q.0 }
    ensures open { result.0 ≡ open_firsts film.now q.0 }
{
    open_firsts_with(film, q, on(film, q))
}

/// Returns the open firsts, given the actors on location. It takes the time of `ready`, and an iteration for each ready
/// scene. If all actors on location work in some ready scenes, each of these is compared with each ready scene at most
/// once.
pub fn open_firsts_with(film: &Film, q: Mask, on: Mask) -> Mask
    requires lies { LiesIn film.now q.0 }
    requires on { on.0 ≡ on_location film.now q.0 }
    ensures { result.0 ≡ open_firsts film.now q.0 }
{
    film.keeps_limits();
    let firsts = ready(film, q);
    let holders = holders(film, firsts, on);
    if holders.is_empty() {
        return firsts;
    }
    let mut open = Mask(0);
    for scene in firsts.iter() {
        if !is_ruled_out_by(film, holders, on, scene) {
            open = open.with(scene);
        }
    }
    open
}

/// Returns the scenes in which all actors on location work. Only these can rule out a scene.
fn holders(film: &Film, firsts: Mask, on: Mask) -> Mask
    requires { LiesIn film.now firsts.0 }
    ensures { (scene : ℕ) → (has result.0 scene ≡ true)
        ↔ ((has firsts.0 scene ≡ true) × (is_part on.0 (slice_index film.now.casts scene) ≡ true)) }
{
    film.keeps_limits();
    let casts = film.casts();
    let mut holders = Mask(0);
    for scene in firsts.iter() {
        if on.minus(Mask(casts[scene as usize])).is_empty() {
            holders = holders.with(scene);
        }
    }
    holders
}

/// Returns whether one of the scenes `firsts` rules out scene `s`. This holds for any set with these actors on location
/// in which all of them are ready.
fn is_ruled_out_by(film: &Film, firsts: Mask, on: Mask, s: u32) -> bool
    requires lies { LiesIn film.now firsts.0 }
    requires scene { s < length film.now.casts }
    ensures { (set : ℕ) → on.0 ≡ on_location film.now set → has (ready film.now set) s ≡ true
        → ((first : ℕ) → has firsts.0 first ≡ true → has (ready film.now set) first ≡ true)
        → result ≡ list_any (λ first. rules_out film.now set first s) (members firsts.0) }
{
    for first in firsts.iter() {
        if goes_before(film, on, first, s) {
            return true;
        }
    }
    false
}

/// Returns whether scene `t` rules out scene `s`, for any set with these actors on location in which both are ready.
fn goes_before(film: &Film, on: Mask, t: u32, s: u32) -> bool
    requires first { t < length film.now.casts }
    requires second { s < length film.now.casts }
    ensures { (set : ℕ) → on.0 ≡ on_location film.now set
        → has (ready film.now set) t ≡ true → has (ready film.now set) s ≡ true
        → result ≡ rules_out film.now set t s }
{
    t != s && fits_before(film, on, t, s) && (t < s || !fits_before(film, on, s, t))
}

/// Returns whether all actors on location work in scene `t`, and each actor of `t` is on location or works in scene
/// `s`.
fn fits_before(film: &Film, on: Mask, t: u32, s: u32) -> bool
    requires first { t < length film.now.casts }
    requires second { s < length film.now.casts }
    ensures { (set : ℕ) → on.0 ≡ on_location film.now set → result ≡ fits_before film.now set t s }
{
    let casts = film.casts();
    let first = Mask(casts[t as usize]);
    let second = Mask(casts[s as usize]);
    on.minus(first).is_empty() && first.minus(on.union(second)).is_empty()
}
