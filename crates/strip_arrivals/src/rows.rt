// The least that a party is paid, by the least totals of its stages, from the last to the first. A row has a number
// for each set of the places of the actors who are still here: what is saved of the most that can be paid.
ghost use Rattle.std.specs.Prelude.{◌≡◌, ℕ, ◌+◌, ◌*◌, ◌^◌, ◌≤◌, true, ◌∷◌, [], length};
ghost use Rattle.strip_mask.specs.Set.{full, has, size, with};
ghost use Rattle.strip_sets.specs.Numbers.{number};
ghost use Rattle.strip_arrivals.specs.Arrivals.{at_first};
ghost use Rattle.strip_arrivals.specs.Company.{AreBoth, ArePair, IsArrived, IsNewcomer, IsParty, IsSaved, IsStage, staying};
ghost use Rattle.strip_arrivals.specs.Gross.{IsGross};

use crate::party::{Arrived, Both, Newcomer, Party};
use crate::table::ArrivalsTable;
use strip_mask::Mask;
use strip_sets::table::{at, copy, greater_with, more_at_most, pass, start};
use strip_sets::{BySet, Classes, NoClass, One, Two};

impl ArrivalsTable {
    /// Returns the least total of a party whose newcomers are all still to come, with the group's own pay. A newcomer
    /// who comes at once is paid for no more than one who comes later, so the newcomers come first, in either order.
    /// It makes one row without newcomers, two with one newcomer, and five with two.
    pub(crate) fn gross<B: BySet>(&self, party: &Party<B>, room: &mut [B]) -> u64
        requires party { IsParty (number B.value B.places) (party.now.higher + B.places) B.most self.now party.now }
        requires room { (1 + 6 * size party.now.newcomers.0) * 2 ^ party.now.higher ≤ length room.old }
        ensures { IsGross self.now party.now.crew.now.set.0 party.now.crew.now.group.0 (at_first party.now.newcomers.0)
            result }
    {
        match party.newcomers.first() {
            None => self.gross_alone(party, room),
            Some(one) => match party.newcomers.without(one).first() {
                None => self.gross_with_one(party, one, room),
                Some(other) => self.gross_with_two(party, one, other, room),
            },
        }
    }

    /// Returns the least total of a party without newcomers, with the group's own pay.
    fn gross_alone<B: BySet>(&self, party: &Party<B>, room: &mut [B]) -> u64
        requires party { IsParty (number B.value B.places) (party.now.higher + B.places) B.most self.now party.now }
        requires nobody { party.now.newcomers.0 ≡ 0 }
        requires room { 2 ^ party.now.higher ≤ length room.old }
        ensures { IsGross self.now party.now.crew.now.set.0 party.now.crew.now.group.0 (at_first party.now.newcomers.0)
            result }
    {
        let all = party.all();
        let (row, _) = room.split_at_mut(party.days.len());
        self.over(party, row);
        party.never + party.crew.rate * at(party.days, all) - at(row, all)
    }

    /// Returns the least total of a party with one newcomer, with the group's own pay.
    fn gross_with_one<B: BySet>(&self, party: &Party<B>, actor: u32, room: &mut [B]) -> u64
        requires party { IsParty (number B.value B.places) (party.now.higher + B.places) B.most self.now party.now }
        requires only { party.now.newcomers.0 ≡ with 0 actor }
        requires room { 5 * 2 ^ party.now.higher ≤ length room.old }
        ensures { IsGross self.now party.now.crew.now.set.0 party.now.crew.now.group.0 (at_first party.now.newcomers.0)
            result }
    {
        let all = party.all();
        let (over, room) = room.split_at_mut(party.days.len());
        self.over(party, over);
        let one = self.arrived(party, actor, Mask(0), over, room);
        party.never + party.crew.rate * at(one.newcomer.all, all) - at(one.row, all)
    }

    /// Returns the least total of a party with two newcomers, with the group's own pay: the lesser of what is paid if
    /// either comes first.
    fn gross_with_two<B: BySet>(
        &self,
        party: &Party<B>,
        one: u32,
        other: u32,
        room: &mut [B],
    ) -> u64
        requires party { IsParty (number B.value B.places) (party.now.higher + B.places) B.most self.now party.now }
        requires pair { ArePair party.now.newcomers.0 one other }
        requires room { 13 * 2 ^ party.now.higher ≤ length room.old }
        ensures { IsGross self.now party.now.crew.now.set.0 party.now.crew.now.group.0 (at_first party.now.newcomers.0)
            result }
    {
        let size = party.days.len();
        let (over, room) = room.split_at_mut(size);
        let (room_of_one, room) = room.split_at_mut(4 * size);
        let (room_of_other, room) = room.split_at_mut(4 * size);
        let (room_of_both, room) = room.split_at_mut(2 * size);
        self.over(party, over);
        let one = self.arrived(party, one, Mask(0).with(other), over, room_of_one);
        let gone = Mask(0).with(one.newcomer.actor);
        let other = self.arrived(party, other, gone, over, room_of_other);
        let both = self.both(party, &one.newcomer, &other.newcomer, room_of_both);
        let one_first = self.gross_of_both(party, &both, &one, &other, room);
        let other_first = self.gross_of_both(party, &both, &other, &one, room);
        one_first.min(other_first)
    }

    /// Returns the least total of a party whose two newcomers are here and all of whose group are, with the group's own
    /// pay, if the one came first.
    fn gross_of_both<B: BySet>(
        &self,
        party: &Party<B>,
        both: &Both<B>,
        one: &Arrived<B>,
        other: &Arrived<B>,
        room: &mut [B],
    ) -> u64
        requires party { IsParty (number B.value B.places) (party.now.higher + B.places) B.most self.now party.now }
        requires pair { ArePair party.now.newcomers.0 one.now.newcomer.actor other.now.newcomer.actor }
        requires both { AreBoth (number B.value B.places) (party.now.higher + B.places) self.now party.now
            one.now.newcomer other.now.newcomer both.now }
        requires one { IsArrived (number B.value B.places) (party.now.higher + B.places) self.now party.now
            (with 0 other.now.newcomer.actor) one.now }
        requires other { IsArrived (number B.value B.places) (party.now.higher + B.places) self.now party.now
            (with 0 one.now.newcomer.actor) other.now }
        requires room { 2 * 2 ^ party.now.higher ≤ length room.old }
        ensures gross { IsGross self.now party.now.crew.now.set.0 party.now.crew.now.group.0 (staying
            party.now.crew.now.group.0 0 (one.now.newcomer.actor ∷ other.now.newcomer.actor ∷ []) 0
            (full (size party.now.crew.now.group.0))) result }
        ensures length { length room.new ≡ length room.old }
    {
        let all = party.all();
        let (row, neither) = room.split_at_mut(party.days.len());
        self.both_here(party, both, one, other, row, neither);
        let most = party.never + party.crew.rate * at(both.all, all);
        most + one.newcomer.hold * at(other.newcomer.days, all) - at(row, all)
    }

    /// Makes the row after which all newcomers are gone.
    fn over<B: BySet>(&self, party: &Party<B>, row: &mut [B])
        requires party { IsParty (number B.value B.places) (party.now.higher + B.places) B.most self.now party.now }
        requires sized { length row.old ≡ 2 ^ party.now.higher }
        ensures length { length row.new ≡ length row.old }
        ensures saved { IsSaved self.now party.now.crew.now.set.0 party.now.crew.now.group.0 (party.now.higher + B.places) 0
            [] party.now.newcomers.0 party.now.never party.now.crew.now.holds
            (number B.value B.places party.now.days.now) (λ _. 0) (number B.value B.places row.new) }
    {
        let none = Classes::same(party.days);
        start(row, party.never, 0);
        pass::<B, NoClass>(row, party.higher, &party.crew.holds, party.days, none, none);
    }

    /// Returns a newcomer with the row of the stage in which he is here and the others are gone, from the row after
    /// which all are gone. His tables are in the room.
    fn arrived<'a, B: BySet>(
        &self,
        party: &Party<B>,
        actor: u32,
        gone: Mask,
        over: &[B],
        room: &'a mut [B],
    ) -> Arrived<'a, B>
        requires party { IsParty (number B.value B.places) (party.now.higher + B.places) B.most self.now party.now }
        requires comes { has party.now.newcomers.0 actor ≡ true }
        requires stage { IsStage party.now.newcomers.0 0 (actor ∷ []) gone.0 }
        requires sized { length over.now ≡ 2 ^ party.now.higher }
        requires over { IsSaved self.now party.now.crew.now.set.0 party.now.crew.now.group.0 (party.now.higher + B.places) 0
            [] party.now.newcomers.0 party.now.never party.now.crew.now.holds
            (number B.value B.places party.now.days.now) (λ _. 0) (number B.value B.places over.now) }
        requires room { 4 * 2 ^ party.now.higher ≤ length room.old }
        ensures actor { result.newcomer.actor ≡ actor }
        ensures arrived { IsArrived (number B.value B.places) (party.now.higher + B.places) self.now party.now gone.0
            result }
    {
        let (row, room) = room.split_at_mut(party.days.len());
        let newcomer = self.newcomer(party, actor, room);
        copy(row, over);
        self.alone(party, &newcomer, gone, row);
        Arrived { newcomer, row }
    }

    /// Makes the row in which one newcomer is here and all others are gone, from the row in which he is gone, too.
    fn alone<B: BySet>(&self, party: &Party<B>, one: &Newcomer<B>, gone: Mask, row: &mut [B])
        requires party { IsParty (number B.value B.places) (party.now.higher + B.places) B.most self.now party.now }
        requires one { IsNewcomer (number B.value B.places) (party.now.higher + B.places) self.now party.now one.now }
        requires stage { IsStage party.now.newcomers.0 0 (one.now.actor ∷ []) gone.0 }
        requires sized { length row.old ≡ 2 ^ party.now.higher }
        requires over { IsSaved self.now party.now.crew.now.set.0 party.now.crew.now.group.0 (party.now.higher + B.places) 0
            [] party.now.newcomers.0 party.now.never party.now.crew.now.holds
            (number B.value B.places party.now.days.now) (λ _. 0) (number B.value B.places row.old) }
        ensures length { length row.new ≡ length row.old }
        ensures saved { IsSaved self.now party.now.crew.now.set.0 party.now.crew.now.group.0 (party.now.higher + B.places) 0
            (one.now.actor ∷ []) gone.0 party.now.never party.now.crew.now.holds
            (number B.value B.places one.now.all.now) (λ _. 0) (number B.value B.places row.new) }
    {
        let extras = Classes::same(one.extra);
        let owed = Classes::same(party.days);
        pass::<B, One>(row, party.higher, &party.crew.holds, one.all, extras, owed);
    }

    /// Makes the row in which both newcomers are here and the one came first, from the rows in which one of them is
    /// here alone. While the other's scenes are open, the one waits on their days: his pay for them counts as saved,
    /// too. The room is for another table.
    fn both_here<B: BySet>(
        &self,
        party: &Party<B>,
        both: &Both<B>,
        one: &Arrived<B>,
        other: &Arrived<B>,
        row: &mut [B],
        room: &mut [B],
    )
        requires party { IsParty (number B.value B.places) (party.now.higher + B.places) B.most self.now party.now }
        requires pair { ArePair party.now.newcomers.0 one.now.newcomer.actor other.now.newcomer.actor }
        requires both { AreBoth (number B.value B.places) (party.now.higher + B.places) self.now party.now
            one.now.newcomer other.now.newcomer both.now }
        requires one { IsArrived (number B.value B.places) (party.now.higher + B.places) self.now party.now
            (with 0 other.now.newcomer.actor) one.now }
        requires other { IsArrived (number B.value B.places) (party.now.higher + B.places) self.now party.now
            (with 0 one.now.newcomer.actor) other.now }
        requires sized { length row.old ≡ 2 ^ party.now.higher }
        requires room { 2 ^ party.now.higher ≤ length room.old }
        ensures length { (length row.new ≡ length row.old) × (length room.new ≡ length room.old) }
        ensures saved { IsSaved self.now party.now.crew.now.set.0 party.now.crew.now.group.0 (party.now.higher + B.places) 0
            (one.now.newcomer.actor ∷ other.now.newcomer.actor ∷ []) 0 party.now.never party.now.crew.now.holds
            (number B.value B.places both.now.all.now)
            (λ places. one.now.newcomer.hold * number B.value B.places other.now.newcomer.days.now places)
            (number B.value B.places row.new) }
    {
        let (first, second) = (&one.newcomer, &other.newcomer);
        let (neither, _) = room.split_at_mut(party.days.len());
        more_at_most(neither, second.extra, first.hold, both.mates);
        copy(row, one.row);
        greater_with(
            row,
            other.row,
            first.hold,
            second.days,
            second.extra,
            first.days,
        );
        let extras = Classes {
            first: &*neither,
            second: second.extra,
        };
        let owed = Classes {
            first: party.days,
            second: first.days,
        };
        pass::<B, Two>(row, party.higher, &party.crew.holds, both.all, extras, owed);
    }
}
