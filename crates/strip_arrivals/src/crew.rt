// A group of actors by places, and tables with a number for each set of places.
ghost use Rattle.std.specs.Prelude.{◌≡◌, ℕ, ◌+◌, ◌^◌, ◌<◌, ◌≤◌, ◌&&◌, cond, not, true, false, List, length, slice_index};
ghost use Rattle.strip_mask.specs.Set.{IsSet, LiesBelow, has, size, sum_over, with};
ghost use Rattle.strip_group.specs.Places.{actor_at};
ghost use Rattle.strip_sets.specs.Numbers.{number};
ghost use Rattle.strip_arrivals.specs.Arrivals.{actors_of, is_without};
ghost use Rattle.strip_arrivals.specs.Company.{AreCounted, AreMates, IsCrew};

use crate::table::ArrivalsTable;
use strip_mask::Mask;
use strip_sets::BySet;
use strip_sets::laws::sums_below_have_what_is_added;
use strip_sets::table::{add, below, other_sums, start};

/// The greatest number of places in a group.
pub(crate) const PLACES: usize = 10;

/// A group of actors and a set of scenes. Its actors have places, by rising number. A set of places is a mask: bit i
/// stands for place i.
#[derive(Drop)]
pub(crate) struct Crew {
    pub(crate) set: Mask,
    pub(crate) group: Mask,
    /// For each scene of the set, the places of the actors who work in it.
    pub(crate) casts: [u16; 64],
    /// By place, the actor's pay for a day of waiting.
    pub(crate) holds: [u64; PLACES],
    /// The sum of these hold rates.
    pub(crate) rate: u64,
}

impl ArrivalsTable {
    /// Returns the group on the set of scenes.
    pub(crate) fn crew(&self, set: Mask, group: Mask) -> Crew
        requires few { size group.0 ≤ 10 }
        requires known { LiesBelow (length self.now.holds) group.0 }
        ensures set { result.set ≡ set }
        ensures group { result.group ≡ group }
        ensures crew { (count : ℕ) → size group.0 ≤ count → IsCrew count self.now result }
    {
        Crew {
            set,
            group,
            casts: self.casts_of(set, group),
            holds: self.holds_of(group),
            rate: self.rate(group),
        }
    }

    /// Returns the hold rates of the group by place, 0 at each place beyond. Time is linear in the size of the group.
    fn holds_of(&self, group: Mask) -> [u64; PLACES]
        requires few { size group.0 ≤ 10 }
        requires known { LiesBelow (length self.now.holds) group.0 }
        ensures long { length result ≡ 10 }
        ensures holds { (place : ℕ) → place < size group.0
            → slice_index result place ≡ slice_index self.now.holds (actor_at group.0 place) }
        ensures none { (place : ℕ) → size group.0 ≤ place → slice_index result place ≡ 0 }
    {
        let mut holds = [0; PLACES];
        let mut place = 0;
        for actor in group.iter() {
            holds[place] = self.hold(actor);
            place += 1;
        }
        holds
    }

    /// Returns, for each scene of the set, the places of the group's actors who work in it. Time is linear in the
    /// number of their scenes.
    fn casts_of(&self, set: Mask, group: Mask) -> [u16; 64]
        requires few { size group.0 ≤ 10 }
        requires known { LiesBelow (length self.now.holds) group.0 }
        ensures long { length result ≡ 64 }
        ensures casts { (scene place : ℕ) → has set.0 scene ≡ true → place < size group.0
            → has (slice_index result scene) place ≡ has (slice_index self.now.casts scene) (actor_at group.0 place) }
        ensures lies { (scene : ℕ) → LiesBelow (size group.0) (slice_index result scene) }
    {
        let mut casts = [0; 64];
        let mut place = 0;
        for actor in group.iter() {
            add_place(&mut casts, self.plays(actor).meet(set), place);
            place += 1;
        }
        casts
    }

    /// Sets the number of each set of places to the sum of the numbers of the scenes that are open while only the
    /// actors at these places are still here. Time is linear in the number of scenes and of sets times places.
    pub(crate) fn counted<B: BySet>(
        &self,
        crew: &Crew,
        numbers: &[u64],
        scenes: Mask,
        higher: usize,
        table: &mut [B],
    )
        requires few { higher + B.places ≤ 10 }
        requires sized { length table.old ≡ 2 ^ higher }
        requires crew { IsCrew (higher + B.places) self.now crew.now }
        requires within { (scene : ℕ) → has scenes.0 scene ≡ true → has crew.now.set.0 scene ≡ true }
        requires group { IsSet crew.now.group.0 }
        requires long { (scene : ℕ) → has scenes.0 scene ≡ true → scene < length numbers.now }
        requires fits { sum_over numbers.now scenes.0 ≤ B.most }
        ensures length { length table.new ≡ length table.old }
        ensures counted { AreCounted self.now crew.now.group.0 (higher + B.places) numbers.now scenes.0
            (number B.value B.places table.new) }
    {
        sums_below_have_what_is_added();
        start(table, 0, 0);
        for scene in scenes.iter() {
            let cast = crew.casts[scene as usize] as usize;
            add(table, cast, numbers[scene as usize]);
        }
        below(table, higher);
    }

    /// Sets the number of each set of places to the pay for a day of waiting of the group's actors who are at none of
    /// them and work in one of these scenes. Time is linear in the number of scenes and of sets.
    pub(crate) fn mates<B: BySet>(&self, crew: &Crew, scenes: Mask, higher: usize, table: &mut [B])
        requires few { higher + B.places ≤ 10 }
        requires sized { length table.old ≡ 2 ^ higher }
        requires crew { IsCrew (higher + B.places) self.now crew.now }
        requires small { IsSet crew.now.set.0 }
        requires group { IsSet crew.now.group.0 }
        requires room { sum_over self.now.holds crew.now.group.0 ≤ B.most }
        requires within { (scene : ℕ) → has scenes.0 scene ≡ true → has crew.now.set.0 scene ≡ true }
        ensures length { length table.new ≡ length table.old }
        ensures mates { (actors : List ℕ) → ((scene : ℕ)
            → has scenes.0 scene ≡ (has crew.now.set.0 scene && not (is_without self.now (actors_of actors) scene)))
            → AreMates self.now crew.now.set.0 crew.now.group.0 (higher + B.places) actors
            (number B.value B.places table.new) }
    {
        let numbers = holds_at(&crew.holds, works_in(&crew.casts, scenes));
        other_sums(table, higher, 0, &numbers);
    }
}

/// Adds the place to the casts of the scenes.
fn add_place(casts: &mut [u16; 64], scenes: Mask, place: u32)
    requires place { place < 10 }
    requires small { (scene : ℕ) → slice_index casts.old scene < 1024 }
    ensures small { (scene : ℕ) → slice_index casts.new scene < 1024 }
    ensures with { (scene : ℕ) → has scenes.0 scene ≡ true
        → slice_index casts.new scene ≡ with (slice_index casts.old scene) place }
    ensures same { (scene : ℕ) → has scenes.0 scene ≡ false
        → slice_index casts.new scene ≡ slice_index casts.old scene }
{
    for scene in scenes.iter() {
        let cast = Mask(casts[scene as usize] as u64);
        casts[scene as usize] = cast.with(place).0 as u16;
    }
}

/// Returns the places of the actors who work in one of the scenes.
fn works_in(casts: &[u16; 64], scenes: Mask) -> Mask
    ensures some { (place : ℕ) → has result.0 place ≡ true
        → (scene : ℕ) × (has scenes.0 scene ≡ true) × (has (slice_index casts.now scene) place ≡ true) }
    ensures all { (scene place : ℕ) → has scenes.0 scene ≡ true → has (slice_index casts.now scene) place ≡ true
        → has result.0 place ≡ true }
{
    let mut places = Mask(0);
    for scene in scenes.iter() {
        places = places.union(Mask(casts[scene as usize] as u64));
    }
    places
}

/// Returns the hold rates at these places, and 0 at each other place.
fn holds_at(holds: &[u64; PLACES], places: Mask) -> [u64; PLACES]
    requires { LiesBelow 10 places.0 }
    ensures { (place : ℕ) → slice_index result place
        ≡ cond {A = ℕ} (has places.0 place) (slice_index holds.now place) 0 }
{
    let mut numbers = [0; PLACES];
    for place in places.iter() {
        numbers[place as usize] = holds[place as usize];
    }
    numbers
}
