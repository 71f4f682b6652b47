// Workers that take from the queues of a pool.
ghost use Rattle.std.specs.Prelude.{◌≡◌, ◌≢◌, ◌<◌, ◌≤◌, ◌+◌, ◌++◌, ◌⊎◌, ℕ, true, [], ◌∷◌, length, vec_capacity, MatchOption};
ghost use Rattle.strip_steal.specs.Rule.{times};
ghost use Rattle.strip_steal.specs.Steps.{IsAsked};
ghost use Rattle.strip_steal.specs.Taker.{AreShares, IsTaker, GivesNumber, StayAt, have_ended, taken_in, taker_queues, taker_shares};

use crate::seat::Seat;
use std::sync::Wait;

/// A number given to a taker, and the number of the queue that it came from.
#[derive(Clone, Copy, Debug, PartialEq, Eq)]
pub struct Taken {
    pub number: u32,
    pub from: u32,
}

/// A worker's access to a pool: a seat at each queue, the place of its own queue, and the numbers given to it so far.
/// Nothing is put into the queues any more, so a queue that was found empty stays empty.
#[derive(Drop)]
pub struct Taker {
    pub(crate) place: usize,
    pub(crate) seats: Vec<Seat>,
    pub(crate) taken: Vec<Taken>,
}

// Returns the place `turn` turns after the given one, among `count` places in a ring.
fn place_in_turn(place: usize, turn: usize, count: usize) -> usize
    requires { (place < count) × (turn < count) }
    ensures within { result < count }
    ensures turn { (result ≡ place + turn) ⊎ (result + count ≡ place + turn) }
{
    if turn < count - place {
        place + turn
    } else {
        turn - (count - place)
    }
}

impl Taker {
    /// Takes the first number of the taker's own queue. If that queue was found empty, it asks the others in turn, and
    /// returns none if all were. It allocates no memory, and asks each queue at most once. It may wait for another
    /// taker that is about to take from the same queue.
    pub fn take<R: Wait>(&mut self, rt: &R) -> Option<Taken>
        requires taker { IsTaker self.old }
        ensures taker { IsTaker self.new }
        ensures stays { StayAt (taker_queues self.old) (taker_queues self.new) (taker_shares self.old)
            (taker_shares self.new) }
        ensures place { self.new.place ≡ self.old.place }
        ensures answer { MatchOption result
            ((have_ended (taker_shares self.new) ≡ true) × (self.new.taken.items ≡ self.old.taken.items)
            × ((number : ℕ) → times number (taken_in (taker_shares self.new))
            ≡ times number (taken_in (taker_shares self.old))))
            (λ one. GivesNumber self.old one self.new) }
    {
        let count = self.seats.len();
        for turn in 0..count {
            let from = place_in_turn(self.place, turn, count);
            if let Some(number) = self.ask(rt, from) {
                let one = Taken {
                    number,
                    from: from as u32,
                };
                self.note(one);
                return Some(one);
            }
        }
        None
    }

    // Takes from the queue at this place.
    fn ask<R: Wait>(&mut self, rt: &R, from: usize) -> Option<u32>
        requires shares { AreShares 1 (taker_shares self.old) }
        requires within { from < length self.old.seats.items }
        ensures place { self.new.place ≡ self.old.place }
        ensures given { self.new.taken ≡ self.old.taken }
        ensures queues { taker_queues self.new ≡ taker_queues self.old }
        ensures asked { IsAsked (taker_shares self.old) from result (taker_shares self.new) }
    {
        self.seats[from].take(rt)
    }

    // Records a number given; there is room for it.
    fn note(&mut self, one: Taken)
        requires room { length self.old.taken.items < vec_capacity self.old.taken }
        ensures seats { self.new.seats ≡ self.old.seats }
        ensures place { self.new.place ≡ self.old.place }
        ensures noted { self.new.taken.items ≡ self.old.taken.items ++ one ∷ [] }
        ensures room { vec_capacity self.old.taken ≤ vec_capacity self.new.taken }
    {
        let _ = self.taken.push(one);
    }

    /// Returns the numbers given to this taker, in its order.
    pub fn taken(&self) -> &[Taken]
        ensures { result.now ≡ self.now.taken.items }
    {
        &self.taken
    }
}
