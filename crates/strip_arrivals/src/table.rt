// The film's numbers for values, and the value of a party.
ghost use Rattle.std.specs.Prelude.{◌≡◌, ℕ, ◌+◌, ◌*◌, ◌-◌, ◌^◌, ◌<◌, ◌≤◌, true, false, not, All, IfOk, length, slice_index, sum};
ghost use Rattle.strip_mask.specs.Set.{LiesBelow, has, size, sum_over, with};
ghost use Rattle.strip_group.specs.Group.{GroupData};
ghost use Rattle.strip_group.specs.Places.{IsLimited};
ghost use Rattle.strip_arrivals.specs.Arrivals.{arrivals_value, at_first, is_without};
ghost use Rattle.strip_arrivals.specs.Company.{ArePlays, IsCompany, IsCrew, most_paid};
ghost use Rattle.strip_arrivals.specs.Gross.{own_pay};

use crate::crew::Crew;
use crate::room::Room;
use std::alloc::{AllocError, Global};
use std::marker::Model;
use strip_group::DaySums;
use strip_io::Memory;
use strip_mask::{Mask, sum_over};
use strip_sets::{BySet, WideFourPlaces};

/// A quarter of the greatest number of 32 bits.
const NARROW: u64 = 1_073_741_823;

/// A film of at most 64 scenes, for values: casts, days, and hold rates in whole units of money. It also has each
/// actor's scenes, and tables for the days of sets of scenes. It is made once for each film.
#[derive(Debug, Drop)]
pub struct ArrivalsTable {
    casts: Vec<u64>,
    plays: Vec<u64>,
    days: [u64; 64],
    sums: DaySums,
    holds: Vec<u64>,
}

impl Model for ArrivalsTable {
    ghost use Rattle.strip_group.specs.Group.{GroupData};
    ghost use Rattle.strip_arrivals.specs.Company.{IsTable};

    ghost Value = { GroupData };

    ghost view = { λ t. record { casts = t.casts.items; days = t.sums; holds = t.holds.items } };

    ghost invariant = { λ t. IsTable t.casts.items t.plays.items t.days t.sums t.holds.items };
}

impl ArrivalsTable {
    /// Makes the table from a copy of a film's casts, days and hold rates. It fails only if memory runs out. The film's
    /// limits are not checked again.
    pub fn of(
        alloc: Global,
        casts: &[u64],
        days: &[u64],
        holds: &[u64],
    ) -> Result<ArrivalsTable, Memory>
        requires few { length casts.now ≤ 64 }
        requires days { length days.now ≡ length casts.now }
        requires actors { length holds.now ≤ 64 }
        requires day_sum { sum days.now ≤ 19800 }
        requires hold_sum { sum holds.now ≤ 64_000_000_000 }
        requires some_days { All (λ count. 0 < count) days.now }
        ensures { IfOk result (λ table. table ≡ record { casts = casts.now; days = days.now; holds = holds.now }) }
    {
        Ok(ArrivalsTable {
            casts: casts.to_vec(alloc)?,
            plays: plays_of(alloc, casts, holds.len())?,
            days: by_scene(days),
            sums: DaySums::of(alloc, days)?,
            holds: holds.to_vec(alloc)?,
        })
    }

    /// Returns the value of a group of at most ten actors and at most two newcomers outside it, while the set of
    /// scenes remains, in whole units of money. The room is scratch memory. It allocates nothing. Time is linear in the
    /// number of sets of the group's actors, times their number.
    pub fn value(&self, set: Mask, group: Mask, newcomers: Mask, room: &mut Room) -> u64
        requires few { size group.0 ≤ 10 }
        requires few_newcomers { size newcomers.0 ≤ 2 }
        requires known { LiesBelow (length self.now.holds) group.0 }
        requires known_newcomers { LiesBelow (length self.now.holds) newcomers.0 }
        requires apart { (actor : ℕ) → has newcomers.0 actor ≡ true → has group.0 actor ≡ false }
        ensures same { result ≡ arrivals_value self.now set.0 group.0 newcomers.0 }
        ensures small { result ≤ sum self.now.days * sum self.now.holds }
    {
        self.keeps_limits();
        let crew = self.crew(set, group);
        let never = self.never(set, group, newcomers);
        if never > NARROW {
            return self.wide_value(&crew, newcomers, never);
        }
        match group.size() {
            0..=4 => self.value_in(&crew, newcomers, never, 0, &mut room.four),
            5 => self.value_in(&crew, newcomers, never, 0, &mut room.five),
            size => self.value_in(&crew, newcomers, never, size as usize - 6, &mut room.six),
        }
    }

    /// Returns the value by tables of 64-bit numbers, for all ten places.
    #[inline(never)]
    fn wide_value(&self, crew: &Crew, newcomers: Mask, never: u64) -> u64
        requires few { size crew.now.group.0 ≤ 10 }
        requires crew { (count : ℕ) → size crew.now.group.0 ≤ count → IsCrew count self.now crew.now }
        requires company { IsCompany self.now crew.now.set.0 crew.now.group.0 newcomers.0 }
        requires enough { most_paid self.now crew.now.set.0 crew.now.group.0 newcomers.0 < never }
        requires low { sum_over self.now.holds crew.now.group.0 + sum_over self.now.holds newcomers.0 < never }
        requires wide { 4 * never < 2 ^ 64 }
        ensures same { result ≡ arrivals_value self.now crew.now.set.0 crew.now.group.0 newcomers.0 }
        ensures small { result ≤ sum self.now.days * sum self.now.holds }
    {
        let mut room = [WideFourPlaces::all(0); 14 * 64];
        self.value_in(crew, newcomers, never, 6, &mut room)
    }

    /// Returns the value by tables of this type of blocks, with so many places more.
    #[inline(never)]
    fn value_in<B: BySet>(
        &self,
        crew: &Crew,
        newcomers: Mask,
        never: u64,
        higher: usize,
        room: &mut [B],
    ) -> u64
        requires few { higher + B.places ≤ 10 }
        requires crew { IsCrew (higher + B.places) self.now crew.now }
        requires company { IsCompany self.now crew.now.set.0 crew.now.group.0 newcomers.0 }
        requires enough { most_paid self.now crew.now.set.0 crew.now.group.0 newcomers.0 < never }
        requires low { sum_over self.now.holds crew.now.group.0 + sum_over self.now.holds newcomers.0 < never }
        requires narrow { 4 * never ≤ B.most }
        requires wide { 2 ^ 32 - 1 ≤ B.most }
        requires room { (2 + 6 * size newcomers.0) * 2 ^ higher ≤ length room.old }
        ensures same { result ≡ arrivals_value self.now crew.now.set.0 crew.now.group.0 newcomers.0 }
        ensures small { result ≤ sum self.now.days * sum self.now.holds }
    {
        let (days, room) = room.split_at_mut(1 << higher);
        let party = self.party(crew, newcomers, never, higher, days);
        self.gross(&party, room) - self.own_pay(crew.set, crew.group)
    }

    /// Returns a sum of money above all that the group and the newcomers can be paid on the days of the set.
    fn never(&self, set: Mask, group: Mask, newcomers: Mask) -> u64
        requires known { LiesBelow (length self.now.holds) group.0 }
        requires known_newcomers { LiesBelow (length self.now.holds) newcomers.0 }
        ensures enough { most_paid self.now set.0 group.0 newcomers.0 < result }
        ensures low { sum_over self.now.holds group.0 + sum_over self.now.holds newcomers.0 < result }
        ensures small { 4 * result < 2 ^ 64 }
    {
        let rates = self.rate(group) + self.rate(newcomers);
        (self.days(set) + 1) * rates + 1
    }

    /// States that the film is within the limits and each scene has days. It does nothing when it runs.
    fn keeps_limits(&self)
        ensures limits { IsLimited self.now }
        ensures some_days { All (λ count. 0 < count) self.now.days }
    {
        let _ = &self.casts;
    }

    /// Returns the actor's hold rate.
    pub(crate) fn hold(&self, actor: u32) -> u64
        requires { actor < length self.now.holds }
        ensures same { result ≡ slice_index self.now.holds actor }
        ensures low { result ≤ 64_000_000_000 }
    {
        self.holds[actor as usize]
    }

    /// Returns the sum of the actors' hold rates. Time is linear in their number.
    pub(crate) fn rate(&self, actors: Mask) -> u64
        requires { LiesBelow (length self.now.holds) actors.0 }
        ensures same { result ≡ sum_over self.now.holds actors.0 }
        ensures low { result ≤ 64_000_000_000 }
    {
        sum_over(&self.holds, actors)
    }

    /// Returns the scenes in which some of the actors work. Time is linear in the number of actors.
    pub(crate) fn scenes_with(&self, actors: Mask) -> Mask
        requires { LiesBelow (length self.now.holds) actors.0 }
        ensures { (scene : ℕ) → has result.0 scene ≡ not (is_without self.now actors.0 scene) }
    {
        let mut scenes = Mask(0);
        for actor in actors.iter() {
            scenes = scenes.union(self.plays(actor));
        }
        scenes
    }

    /// Returns the scenes in which the actor works.
    pub(crate) fn plays(&self, actor: u32) -> Mask
        requires { actor < length self.now.holds }
        ensures { (scene : ℕ) → has result.0 scene ≡ has (slice_index self.now.casts scene) actor }
    {
        Mask(self.plays[actor as usize])
    }

    /// Returns the days of each scene, and 0 beyond the last one.
    pub(crate) fn scene_days(&self) -> &[u64; 64]
        ensures long { length result.now ≡ 64 }
        ensures days { (scene : ℕ) → slice_index result.now scene ≡ slice_index self.now.days scene }
    {
        &self.days
    }

    /// Returns the sum of the days of the scenes, by one table for each twelve scenes of the film.
    fn days(&self, scenes: Mask) -> u64
        ensures same { result ≡ sum_over self.now.days scenes.0 }
        ensures few { result ≤ 19800 }
    {
        self.sums.sum(scenes)
    }

    /// Returns what the group's actors get, at their hold rates, for the days of the set's scenes in which they work.
    fn own_pay(&self, set: Mask, group: Mask) -> u64
        requires few { size group.0 ≤ 10 }
        requires known { LiesBelow (length self.now.holds) group.0 }
        ensures { (newcomers : ℕ) → result ≡ own_pay self.now set.0 group.0 (at_first newcomers) }
    {
        let mut pay = 0;
        for actor in group.iter() {
            pay += self.hold(actor) * self.days(self.plays(actor).meet(set));
        }
        pay
    }
}

/// Returns the days of each scene, and 0 beyond the last one.
fn by_scene(days: &[u64]) -> [u64; 64]
    requires { length days.now ≤ 64 }
    ensures long { length result ≡ 64 }
    ensures days { (scene : ℕ) → slice_index result scene ≡ slice_index days.now scene }
{
    let mut numbers = [0; 64];
    for scene in 0..days.len() {
        numbers[scene] = days[scene];
    }
    numbers
}

/// Returns, for each actor, the scenes in which he works.
fn plays_of(alloc: Global, casts: &[u64], actors: usize) -> Result<Vec<u64>, AllocError>
    requires few { length casts.now ≤ 64 }
    requires known { actors ≤ 64 }
    ensures { IfOk result (λ plays. ArePlays casts.now plays.items actors) }
{
    let mut plays = Vec::new(alloc);
    for actor in 0..actors {
        plays.push(scenes_of(casts, actor as u32).0)?;
    }
    Ok(plays)
}

/// Returns the scenes with the actor.
fn scenes_of(casts: &[u64], actor: u32) -> Mask
    requires few { length casts.now ≤ 64 }
    requires known { actor < 64 }
    ensures { (scene : ℕ) → has result.0 scene ≡ has (slice_index casts.now scene) actor }
{
    let mut scenes = Mask(0);
    for scene in 0..casts.len() {
        if Mask(casts[scene]).has(actor) {
            scenes = scenes.with(scene as u32);
        }
    }
    scenes
}
