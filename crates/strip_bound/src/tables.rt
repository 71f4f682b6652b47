// Precomputed tables of a film, for its static bounds.
ghost use Rattle.std.specs.Prelude.{◌≡◌, ℕ, ◌<◌, ◌≤◌, IfOk, length, slice_index};
ghost use Rattle.strip_mask.specs.Set.{has, numbers_below};
ghost use Rattle.strip_bound.specs.Falling.{by_falling};
ghost use Rattle.strip_bound.specs.Tables.{ArePlays, AreTables, AreWeights};

use crate::falling::{Falling, by_falling};
use std::alloc::{AllocError, Global};
use strip_arrivals::ArrivalsTable;
use strip_film::Film;
use strip_group::GroupTable;
use strip_io::Memory;
use strip_mask::{Mask, sum_over};

/// Tables for the static bounds of a film, made once: numbers for each scene and actor, and tables for groups and for
/// parties.
#[derive(Debug, Drop)]
pub struct BoundTables {
    /// Each scene's days at the rates of its cast, in whole units of money.
    pub(crate) weights: Vec<u64>,
    /// For each actor the set of his scenes.
    pub(crate) plays: Vec<u64>,
    pub(crate) groups: GroupTable,
    pub(crate) arrivals: ArrivalsTable,
    /// The actors by falling hold rate, and by number at equal rates.
    pub(crate) by_hold: Falling,
}

impl BoundTables {
    /// Makes the tables of the film. It fails only if memory runs out.
    pub fn of(alloc: Global, film: &Film) -> Result<BoundTables, Memory>
        ensures { IfOk result (λ tables. AreTables film.now tables) }
    {
        film.keeps_limits();
        Ok(BoundTables {
            weights: weights_of(alloc, film)?,
            plays: plays_of(alloc, film)?,
            groups: GroupTable::of(alloc, film.casts(), film.days(), film.holds())?,
            arrivals: ArrivalsTable::of(alloc, film.casts(), film.days(), film.holds())?,
            by_hold: by_hold(film),
        })
    }
}

/// Returns for each scene its days at the rates of its cast.
fn weights_of(alloc: Global, film: &Film) -> Result<Vec<u64>, AllocError>
    ensures { IfOk result (λ weights. AreWeights film.now weights.items) }
{
    film.keeps_limits();
    let (casts, days, rates) = (film.casts(), film.days(), film.rates());
    let mut weights = Vec::new(alloc);
    for scene in 0..casts.len() {
        weights.push(days[scene] * sum_over(rates, Mask(casts[scene])))?;
    }
    Ok(weights)
}

/// Returns for each actor the set of his scenes.
fn plays_of(alloc: Global, film: &Film) -> Result<Vec<u64>, AllocError>
    ensures { IfOk result (λ plays. ArePlays film.now plays.items) }
{
    film.keeps_limits();
    let casts = film.casts();
    let mut plays = Vec::new(alloc);
    for actor in 0..film.rates().len() {
        plays.push(scenes_with(casts, actor as u32).0)?;
    }
    Ok(plays)
}

/// Returns the actors by falling hold rate, and by number at equal rates.
fn by_hold(film: &Film) -> Falling
    ensures { result.items ≡ by_falling (slice_index film.now.holds) (numbers_below (length film.now.holds)) }
{
    film.keeps_limits();
    by_falling(film.holds())
}

/// Returns the scenes whose cast has the actor.
fn scenes_with(casts: &[u64], actor: u32) -> Mask
    requires few { length casts.now ≤ 64 }
    requires known { actor < 64 }
    ensures { (scene : ℕ) → has result.0 scene ≡ has (slice_index casts.now scene) actor }
{
    let mut scenes = Mask(0);
    for scene in 0..casts.len() {
        if Mask(casts[scene]).has(actor) {
            scenes = scenes.with(scene as u32);
        }
    }
    scenes
}
