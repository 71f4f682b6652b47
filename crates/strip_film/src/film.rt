// Films within the limits.
ghost use Rattle.std.specs.Prelude.{◌≡◌, ◌↔◌, ℕ, ◌<◌, ◌≤◌, true, List, length, sum, All, IsTrue, IsSome, IfSome, IfOk};
ghost use Rattle.strip_mask.specs.Set.{LiesBelow, has};
ghost use Rattle.strip_model.specs.Film.{FilmData};
ghost use Rattle.strip_model.specs.Pairs.{IsKnownPair, Precedes};
ghost use Rattle.strip_film.specs.Film.{IsFilm, TellsBefore, all_scenes, film_data};

use crate::limits::{MAX_COUNT, MAX_DAY_SUM, MAX_RATE_SUM};
use std::marker::Model;
use strip_io::Memory;
use strip_mask::Mask;
use strip_model::{Pair, fit};

/// A film: scenes and actors by number. It has casts, days, each actor's pay for a day of work and for a day of
/// waiting, and the pairs (precedence constraints). A cast is a mask of actor numbers.
#[derive(Debug, Drop)]
pub struct Film {
    casts: Vec<u64>,
    days: Vec<u64>,
    rates: Vec<u64>,
    holds: Vec<u64>,
    pairs: Vec<Pair>,
    // Computed once, so that no call goes over the casts or pairs for them: the set of all scenes, and for each scene
    // the scenes that a pair puts before it.
    all: Mask,
    before: [u64; MAX_COUNT],
}

impl Model for Film {
    ghost use Rattle.std.specs.Prelude.{◌≡◌, length};
    ghost use Rattle.strip_mask.specs.Set.{full};
    ghost use Rattle.strip_model.specs.Film.{FilmData};
    ghost use Rattle.strip_film.specs.Film.{IsFilm, TellsBefore, film_data};

    ghost Value = { FilmData };

    ghost view = { λ f. film_data f.casts.items f.days.items f.rates.items f.holds.items f.pairs.items };

    ghost invariant = { λ f. IsFilm (film_data f.casts.items f.days.items f.rates.items f.holds.items f.pairs.items)
        × (f.all.0 ≡ full (length f.casts.items))
        × TellsBefore f.pairs.items f.before };
}

impl Film {
    /// Makes the film of these casts, days, rates, hold rates and pairs, or none if they break a limit. The limits are:
    ///
    /// - 1 to 64 scenes, with a number of days for each, none of them 0, together at most 19,800;
    /// - at most 64 actors, with a rate and a hold rate for each; each of the two adds up to at most 64,000,000,000;
    /// - casts without a bit that is no actor's number;
    /// - pairs of two different scenes each, none twice, and without a cycle.
    ///
    /// It allocates no memory.
    pub fn of(
        casts: Vec<u64>,
        days: Vec<u64>,
        rates: Vec<u64>,
        holds: Vec<u64>,
        pairs: Vec<Pair>,
    ) -> Option<Film>
        ensures limits { IsSome result ↔ IsFilm (film_data casts.items days.items rates.items holds.items pairs.items) }
        ensures same { IfSome result (λ film. film
            ≡ film_data casts.items days.items rates.items holds.items pairs.items) }
    {
        if !are_within_limits(&casts, &days, &rates, &holds, &pairs) {
            return None;
        }
        let all = Mask::below(casts.len() as u32);
        let before = directly_before(&pairs);
        Some(Film {
            casts,
            days,
            rates,
            holds,
            pairs,
            all,
            before,
        })
    }

    /// A law: every film keeps the limits. The call does nothing when it runs; a caller obtains the limits by it.
    pub fn keeps_limits(&self)
        ensures { IsFilm self.now }
    {
        let _ = &self.casts;
    }

    /// Returns the number of scenes.
    pub fn scenes(&self) -> usize
        ensures { result ≡ length self.now.casts }
    {
        self.casts.len()
    }

    /// Returns the set of all scenes.
    pub fn all(&self) -> Mask
        ensures { result.0 ≡ all_scenes self.now }
    {
        self.all
    }

    /// Returns each scene's cast, as a mask of actor numbers.
    pub fn casts(&self) -> &[u64]
        ensures { result.now ≡ self.now.casts }
    {
        &self.casts
    }

    /// Returns each scene's number of days.
    pub fn days(&self) -> &[u64]
        ensures { result.now ≡ self.now.days }
    {
        &self.days
    }

    /// Returns each actor's pay for a day of work, in whole units of money, by actor number.
    pub fn rates(&self) -> &[u64]
        ensures { result.now ≡ self.now.rates }
    {
        &self.rates
    }

    /// Returns each actor's pay for a day of waiting, in whole units of money, by actor number.
    pub fn holds(&self) -> &[u64]
        ensures { result.now ≡ self.now.holds }
    {
        &self.holds
    }

    /// Returns the pairs (precedence constraints) of scenes.
    pub fn pairs(&self) -> &[Pair]
        ensures { result.now ≡ self.now.pairs }
    {
        &self.pairs
    }

    /// Returns the scenes that a pair puts directly before this scene, which is below 64.
    pub fn before(&self, scene: u32) -> Mask
        requires { scene < MAX_COUNT }
        ensures { (first : ℕ) → (has result.0 first ≡ true) ↔ Precedes self.now.pairs first scene }
    {
        Mask(self.before[scene as usize])
    }

    /// Returns an equal film with lists of its own. It fails only if memory runs out.
    pub fn copy(&self) -> Result<Film, Memory>
        ensures { IfOk result (λ film. film ≡ self.now) }
    {
        Ok(Film {
            casts: self.casts.clone()?,
            days: self.days.clone()?,
            rates: self.rates.clone()?,
            holds: self.holds.clone()?,
            pairs: self.pairs.clone()?,
            all: self.all,
            before: self.before,
        })
    }
}

fn are_within_limits(
    casts: &[u64],
    days: &[u64],
    rates: &[u64],
    holds: &[u64],
    pairs: &[Pair],
) -> bool
    ensures { IsTrue result ↔ IsFilm (film_data casts.now days.now rates.now holds.now pairs.now) }
{
    !casts.is_empty()
        && casts.len() <= MAX_COUNT
        && days.len() == casts.len()
        && rates.len() <= MAX_COUNT
        && holds.len() == rates.len()
        && days.iter().all(|count| *count > 0)
        && add_up_to_at_most(days, MAX_DAY_SUM)
        && add_up_to_at_most(rates, MAX_RATE_SUM)
        && add_up_to_at_most(holds, MAX_RATE_SUM)
        && all_lie_below(casts, rates.len())
        && fit(pairs, casts.len())
}

/// Returns whether the sum of the values is at most the limit, without overflow.
fn add_up_to_at_most(values: &[u64], limit: u64) -> bool
    ensures { IsTrue result ↔ (sum values.now ≤ limit) }
{
    let mut left = limit;
    for value in values {
        if *value > left {
            return false;
        }
        left -= *value;
    }
    true
}

/// Returns whether each number of each set is below `count`.
fn all_lie_below(sets: &[u64], count: usize) -> bool
    requires { count ≤ MAX_COUNT }
    ensures { IsTrue result ↔ All (LiesBelow count) sets.now }
{
    sets.iter().all(|set| Mask(*set).lies_below(count as u32))
}

/// Returns for each scene the scenes that a pair puts directly before it.
fn directly_before(pairs: &[Pair]) -> [u64; MAX_COUNT]
    requires { All (IsKnownPair MAX_COUNT) pairs.now }
    ensures { TellsBefore pairs.now result }
{
    let mut before = [0; MAX_COUNT];
    for pair in pairs {
        let then = pair.then as usize;
        before[then] = Mask(before[then]).with(pair.first as u32).0;
    }
    before
}
