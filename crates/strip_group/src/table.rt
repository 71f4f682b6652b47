// Precomputed tables of a film, for the extras of groups.
ghost use Rattle.std.specs.Prelude.{◌≡◌, ℕ, ◌+◌, ◌*◌, ◌-◌, ◌^◌, ◌<◌, ◌≤◌, IfOk, length, not, slice_index, sum};
ghost use Rattle.strip_mask.specs.Set.{LiesBelow, has, meet, size, sum_over};
ghost use Rattle.strip_mask.specs.Sums.{sum_below};
ghost use Rattle.strip_group.specs.Group.{GroupData, group_extra};
ghost use Rattle.strip_group.specs.Places.{AreStays, actor_at};
ghost use Rattle.strip_group.specs.Saved.{IsSavedMost, left_by};

use crate::by_set::{BySet, Halves};
use crate::days::{DaySums, copy_of};
use std::alloc::{AllocError, Global};
use std::marker::Model;
use strip_io::Memory;
use strip_mask::Mask;

/// Numbers for all subsets of six places: four lanes at once if they are below 2^32, else one by one.
type Narrow = Halves<Halves<Halves<Halves<[u32; 4]>>>>;

type Wide = Halves<Halves<Halves<Halves<Halves<Halves<u64>>>>>>;

/// Tables of a film of at most 64 scenes: casts, days, and each actor's pay for a day of waiting, in whole units of
/// money. It has copies of these numbers, the scenes without each actor, and the days of sets.
#[derive(Debug, Drop)]
pub struct GroupTable {
    casts: Vec<u64>,
    stays: Vec<u64>,
    sums: DaySums,
    holds: Vec<u64>,
}

impl Model for GroupTable {
    ghost use Rattle.strip_group.specs.Group.{GroupData};
    ghost use Rattle.strip_group.specs.Places.{IsTable};

    ghost Value = { GroupData };

    ghost view = { λ t. record { casts = t.casts.items; days = t.sums; holds = t.holds.items } };

    ghost invariant = { λ t. IsTable t.casts.items t.stays.items t.sums t.holds.items };
}

impl GroupTable {
    /// Makes the tables of a film's casts, days and hold rates. It does not check the limits, which the contract
    /// requires. It fails only if memory runs out.
    pub fn of(
        alloc: Global,
        casts: &[u64],
        days: &[u64],
        holds: &[u64],
    ) -> Result<GroupTable, Memory>
        requires few { length casts.now ≤ 64 }
        requires days { length days.now ≡ length casts.now }
        requires actors { length holds.now ≤ 64 }
        requires day_sum { sum days.now ≤ 19800 }
        requires hold_sum { sum holds.now ≤ 64_000_000_000 }
        ensures { IfOk result (λ table. table ≡ record { casts = casts.now; days = days.now; holds = holds.now }) }
    {
        Ok(GroupTable {
            casts: copy_of(alloc, casts)?,
            stays: stays_of(alloc, casts, holds.len())?,
            sums: DaySums::of(alloc, days)?,
            holds: copy_of(alloc, holds)?,
        })
    }

    /// Returns the sums of days over sets of the film's scenes.
    pub fn day_sums(&self) -> &DaySums
        ensures { result.now ≡ self.now.days }
    {
        &self.sums
    }

    /// Returns the extra of a group of at most six actors on location: a lower bound of its pay for waiting while the
    /// set of scenes remains. The unit is whole units of money. It allocates no memory. It takes an iteration for each
    /// twelve scenes and each set of six places.
    pub fn extra(&self, group: Mask, q: Mask) -> u64
        requires few { size group.0 ≤ 6 }
        requires known { LiesBelow (length self.now.holds) group.0 }
        requires lies { LiesBelow (length self.now.casts) q.0 }
        ensures { result ≡ group_extra self.now q.0 group.0 }
    {
        let places = by_place(&self.stays, &self.holds, group);
        let most = total(&places.rates) * self.sums.all().max(1);
        let pay = if most <= u32::MAX as u64 {
            pay_of::<Narrow>(&self.sums, q, &places.stays, &places.rates)
        } else {
            pay_of::<Wide>(&self.sums, q, &places.stays, &places.rates)
        };
        pay.alone - pay.saved
    }
}

/// Returns for each actor the scenes without him.
fn stays_of(alloc: Global, casts: &[u64], actors: usize) -> Result<Vec<u64>, AllocError>
    requires few { length casts.now ≤ 64 }
    requires known { actors ≤ 64 }
    ensures { IfOk result (λ stays. AreStays casts.now stays.items actors) }
{
    let mut stays = Vec::new(alloc);
    for actor in 0..actors {
        stays.push(scenes_without(casts, actor as u32).0)?;
    }
    Ok(stays)
}

/// Returns the scenes whose cast lacks the actor.
fn scenes_without(casts: &[u64], actor: u32) -> Mask
    requires few { length casts.now ≤ 64 }
    requires known { actor < 64 }
    ensures { (scene : ℕ) → scene < length casts.now
        → has result.0 scene ≡ not (has (slice_index casts.now scene) actor) }
{
    let mut scenes = Mask(0);
    for scene in 0..casts.len() {
        if !Mask(casts[scene]).has(actor) {
            scenes = scenes.with(scene as u32);
        }
    }
    scenes
}

/// The group's actors by place: the scenes without each of them, and his pay for a day of waiting.
#[derive(Debug, Drop)]
struct Places {
    stays: [u64; 6],
    rates: [u64; 6],
}

/// Returns the places of the group's actors. Places behind the last have all scenes and no pay. Time is linear in the
/// group's size.
fn by_place(stays: &[u64], holds: &[u64], group: Mask) -> Places
    requires few { size group.0 ≤ 6 }
    requires known { LiesBelow (length holds.now) group.0 }
    requires count { length stays.now ≡ length holds.now }
    ensures stays { (place : ℕ) → place < size group.0
        → slice_index result.stays place ≡ slice_index stays.now (actor_at group.0 place) }
    ensures all_stay { (place : ℕ) → size group.0 ≤ place → place < 6 → slice_index result.stays place ≡ 2 ^ 64 - 1 }
    ensures rates { (place : ℕ) → place < size group.0
        → slice_index result.rates place ≡ slice_index holds.now (actor_at group.0 place) }
    ensures no_rate { (place : ℕ) → size group.0 ≤ place → place < 6 → slice_index result.rates place ≡ 0 }
{
    let mut stay_at = [u64::MAX; 6];
    let mut rate_at = [0; 6];
    let mut place = 0;
    for actor in group.iter() {
        stay_at[place] = stays[actor as usize];
        rate_at[place] = holds[actor as usize];
        place += 1;
    }
    Places {
        stays: stay_at,
        rates: rate_at,
    }
}

/// Returns the sum of the six rates.
fn total(rates: &[u64; 6]) -> u64
    requires { (place : ℕ) → slice_index rates.now place ≤ 64_000_000_000 }
    ensures same { result ≡ sum rates.now }
    ensures small { result ≤ 384_000_000_000 }
{
    let mut sum = 0;
    for place in 0..6 {
        sum += rates[place];
    }
    sum
}

/// The pay of six places if each waits on all days without him, and their greatest saving. A place that leaves after
/// others needn't wait on the days without all of them and him.
#[derive(Debug, Drop)]
struct Pay {
    alone: u64,
    saved: u64,
}

/// Returns the pay of six places and their greatest saving, while the set of scenes remains.
fn pay_of<T: BySet>(sums: &DaySums, q: Mask, stays: &[u64; 6], rates: &[u64; 6]) -> Pay
    requires short { length sums.now ≤ 64 }
    requires day_sum { sum sums.now ≤ 19800 }
    requires places { T.places ≡ 6 }
    requires wide { 4294967295 ≤ T.most }
    requires rate { (place : ℕ) → slice_index rates.now place ≤ 64_000_000_000 }
    requires rates { sum rates.now ≤ T.most }
    requires room { sum rates.now * sum_over sums.now q.0 ≤ T.most }
    ensures alone { result.alone ≡ sum_below 6 (λ place. slice_index rates.now place * sum_over sums.now
        (meet q.0 (slice_index stays.now place))) }
    ensures saved { IsSavedMost rates.now (λ set. sum_over sums.now (left_by stays.now 6 set q.0)) result.saved }
{
    let days: T = sums.by_set(q, stays);
    Pay {
        alone: days.paid_alone(rates),
        saved: T::none().saved(&days, rates).last(),
    }
}
