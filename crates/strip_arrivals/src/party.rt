// A group and its newcomers, with the tables that their stages go by. A table has a number for each set of places, in
// blocks of a lent room.
ghost use Rattle.std.specs.Prelude.{◌≡◌, ◌<◌, ◌≤◌, ◌*◌, ◌+◌, ◌^◌, ◌-◌, true, length};
ghost use Rattle.strip_mask.specs.Set.{full, has, size, sum_over};
ghost use Rattle.strip_sets.specs.Numbers.{number};
ghost use Rattle.strip_arrivals.specs.Company.{AreBoth, ArePair, IsCompany, IsCrew, IsNewcomer, IsParty, most_paid};

use crate::crew::Crew;
use crate::table::ArrivalsTable;
use strip_mask::Mask;
use strip_sets::BySet;
use strip_sets::table::{at_most, copy, plus};

/// A group, its newcomers and a set of scenes.
#[derive(Drop)]
pub(crate) struct Party<'a, B> {
    pub(crate) crew: &'a Crew,
    pub(crate) newcomers: Mask,
    /// A sum of money above all that the party can be paid.
    pub(crate) never: u64,
    /// The number of places beyond those of a block.
    pub(crate) higher: usize,
    /// For each set of places, the days of the open scenes without newcomers.
    pub(crate) days: &'a [B],
}

impl<'a, B: BySet> Party<'a, B> {
    /// Returns the set of all places of the group.
    pub(crate) fn all(&self) -> usize
        requires { size self.now.crew.now.group.0 ≤ 10 }
        ensures { result ≡ full (size self.now.crew.now.group.0) }
    {
        Mask::below(self.crew.group.size()).0 as usize
    }
}

/// One of the newcomers.
#[derive(Drop)]
pub(crate) struct Newcomer<'a, B> {
    pub(crate) actor: u32,
    /// His pay for a day of waiting.
    pub(crate) hold: u64,
    /// For each set of places, the days of the open scenes with him and no other newcomer.
    pub(crate) days: &'a [B],
    /// The same days with those of the open scenes without newcomers.
    pub(crate) all: &'a [B],
    /// For each set of places, what a day of a scene without newcomers costs more while he is here: his pay, or that
    /// of the actors who have left and share a scene with him, whichever is less.
    pub(crate) extra: &'a [B],
}

/// A newcomer with the row of the stage in which he is here and the others are gone.
#[derive(Drop)]
pub(crate) struct Arrived<'a, B> {
    pub(crate) newcomer: Newcomer<'a, B>,
    pub(crate) row: &'a [B],
}

/// Two newcomers.
#[derive(Drop)]
pub(crate) struct Both<'a, B> {
    /// For each set of places, the days of all open scenes.
    pub(crate) all: &'a [B],
    /// For each set of places, the pay for a day of waiting of the actors who have left and share a scene with one of
    /// the two.
    pub(crate) mates: &'a [B],
}

impl ArrivalsTable {
    /// Returns the party of a group and its newcomers, with its table in the room.
    pub(crate) fn party<'a, B: BySet>(
        &self,
        crew: &'a Crew,
        newcomers: Mask,
        never: u64,
        higher: usize,
        room: &'a mut [B],
    ) -> Party<'a, B>
        requires few { higher + B.places ≤ 10 }
        requires sized { length room.old ≡ 2 ^ higher }
        requires crew { IsCrew (higher + B.places) self.now crew.now }
        requires company { IsCompany self.now crew.now.set.0 crew.now.group.0 newcomers.0 }
        requires enough { most_paid self.now crew.now.set.0 crew.now.group.0 newcomers.0 < never }
        requires low { sum_over self.now.holds crew.now.group.0 + sum_over self.now.holds newcomers.0 < never }
        requires room { 4 * never ≤ B.most }
        requires wide { 2 ^ 32 - 1 ≤ B.most }
        ensures same { (result.crew.now ≡ crew.now) × (result.newcomers ≡ newcomers) × (result.higher ≡ higher) }
        ensures party { IsParty (number B.value B.places) (higher + B.places) B.most self.now result }
    {
        let without = crew.set.minus(self.scenes_with(newcomers));
        self.counted(crew, self.scene_days(), without, higher, room);
        Party {
            crew,
            newcomers,
            never,
            higher,
            days: room,
        }
    }

    /// Returns a newcomer of the party, with his tables in the room.
    pub(crate) fn newcomer<'a, B: BySet>(
        &self,
        party: &Party<B>,
        actor: u32,
        room: &'a mut [B],
    ) -> Newcomer<'a, B>
        requires party { IsParty (number B.value B.places) (party.now.higher + B.places) B.most self.now party.now }
        requires comes { has party.now.newcomers.0 actor ≡ true }
        requires room { 3 * 2 ^ party.now.higher ≤ length room.old }
        ensures actor { result.actor ≡ actor }
        ensures newcomer { IsNewcomer (number B.value B.places) (party.now.higher + B.places) self.now party.now result }
    {
        let crew = party.crew;
        let hold = self.hold(actor);
        let scenes = self.plays(actor).meet(crew.set);
        let alone = scenes.minus(self.scenes_with(party.newcomers.without(actor)));
        let size = party.days.len();
        let (days, room) = room.split_at_mut(size);
        let (all, room) = room.split_at_mut(size);
        let (extra, _) = room.split_at_mut(size);
        self.counted(crew, self.scene_days(), alone, party.higher, days);
        copy(all, days);
        plus(all, party.days);
        self.mates(crew, scenes, party.higher, extra);
        at_most(extra, hold);
        Newcomer {
            actor,
            hold,
            days,
            all,
            extra,
        }
    }

    /// Returns the tables of the party's two newcomers, in the room.
    pub(crate) fn both<'a, B: BySet>(
        &self,
        party: &Party<B>,
        one: &Newcomer<B>,
        other: &Newcomer<B>,
        room: &'a mut [B],
    ) -> Both<'a, B>
        requires party { IsParty (number B.value B.places) (party.now.higher + B.places) B.most self.now party.now }
        requires pair { ArePair party.now.newcomers.0 one.now.actor other.now.actor }
        requires one { IsNewcomer (number B.value B.places) (party.now.higher + B.places) self.now party.now one.now }
        requires other { IsNewcomer (number B.value B.places) (party.now.higher + B.places) self.now party.now other.now }
        requires room { 2 * 2 ^ party.now.higher ≤ length room.old }
        ensures { AreBoth (number B.value B.places) (party.now.higher + B.places) self.now party.now one.now other.now
            result }
    {
        let crew = party.crew;
        let (with_one, with_other) = (self.plays(one.actor), self.plays(other.actor));
        let both = with_one.meet(with_other).meet(crew.set);
        let either = with_one.union(with_other).meet(crew.set);
        let size = party.days.len();
        let (all, room) = room.split_at_mut(size);
        let (mates, _) = room.split_at_mut(size);
        self.counted(crew, self.scene_days(), both, party.higher, all);
        plus(all, one.all);
        plus(all, other.days);
        self.mates(crew, either, party.higher, mates);
        Both { all, mates }
    }
}
