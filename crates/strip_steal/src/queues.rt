// The queues of a pool, and gathering the numbers taken from them.
ghost use Rattle.std.specs.Prelude.{◌≡◌, ◌<◌, ◌≤◌, ◌+◌, ℕ, suc, [], All, length, map, IfOk};
ghost use Rattle.strip_steal.specs.Rule.{times};
ghost use Rattle.crossbeam_deque.specs.Handles.{worker_deque, worker_view};
ghost use Rattle.strip_steal.specs.Seat.{queue_of, share_of};
ghost use Rattle.strip_steal.specs.Steps.{AreCounted, AreJoined, joined, lightened, split_off};
ghost use Rattle.strip_steal.specs.Taker.{HasGathered, IsPool, IsTaker, StayAt, have_ended, pool_queues, pool_shares, taken_in, taker_queues, taker_shares};

use crate::rule::{Count, Cut, Merge};
use crate::seat::{Owner, Seat};
use crate::taker::{Taken, Taker};
use std::alloc::Global;
use strip_io::Memory;

/// The owners' ends of the queues of a pool, and the count of numbers put into them. At the end it gathers the numbers
/// that takers took.
#[derive(Drop)]
pub struct Pool {
    pub(crate) owners: Vec<Owner>,
    pub(crate) count: usize,
}

// Makes a seat at this queue, with a weight of 1 from its owner.
fn seat_at(owner: &mut Owner) -> Result<Seat, Memory>
    requires weight { 2 ≤ (worker_view owner.old).weight }
    ensures queue { worker_deque owner.new ≡ worker_deque owner.old }
    ensures lighter { IfOk result (λ _. worker_view owner.new ≡ lightened (worker_view owner.old)) }
    ensures seat { IfOk result (λ seat. queue_of seat ≡ worker_deque owner.old) }
    ensures share { IfOk result (λ seat. share_of seat ≡ split_off (worker_view owner.old)) }
{
    let queue = owner.stealer()?;
    let pass = owner.another::<Cut>();
    Ok(Seat {
        queue,
        pass,
        has_ended: false,
    })
}

// Joins a seat of the owner's queue into the owner, and counts the numbers taken.
fn join_at(owner: &mut Owner, seat: Seat)
    requires same { queue_of seat ≡ worker_deque owner.old }
    requires weight { 0 < (worker_view owner.old).weight }
    requires other { 0 < (share_of seat).weight }
    ensures queue { worker_deque owner.new ≡ worker_deque owner.old }
    ensures joined { worker_view owner.new ≡ joined (worker_view owner.old) (share_of seat) }
    ensures counted { AreCounted (worker_view owner.new) }
{
    let Seat {
        queue: _,
        pass,
        has_ended: _,
    } = seat;
    owner.absorb::<Merge>(pass);
    owner.len_as::<Count>();
}

impl Pool {
    /// Makes a further taker, whose own queue is the one at this place. It allocates all memory of the taker, and fails
    /// only if memory runs out: a seat at each queue, and room for all numbers.
    pub fn taker(&mut self, alloc: Global, place: u32) -> Result<Taker, Memory>
        requires pool { (rest : ℕ) × IsPool (suc (suc rest)) self.old }
        requires place { place < length self.old.owners.items }
        ensures taker { IfOk result IsTaker }
        ensures place { IfOk result (λ taker. taker.place ≡ place) }
        ensures same { IfOk result (λ taker. StayAt (pool_queues self.old) (taker_queues taker) (pool_shares self.old)
            (taker_shares taker)) }
        ensures unused { IfOk result (λ taker. (taker.taken.items ≡ []) × ((number : ℕ)
            → times number (taken_in (taker_shares taker)) ≡ 0)) }
        ensures weight { IfOk result (λ _. (weight : ℕ) → IsPool (suc weight) self.old → IsPool weight self.new) }
        ensures stays { IfOk result (λ _. StayAt (pool_queues self.old) (pool_queues self.new) (pool_shares self.old)
            (pool_shares self.new)) }
        ensures taken { IfOk result (λ _. (number : ℕ)
            → times number (taken_in (pool_shares self.new)) ≡ times number (taken_in (pool_shares self.old))) }
        ensures ended { IfOk result (λ _. have_ended (pool_shares self.new) ≡ have_ended (pool_shares self.old)) }
    {
        let taken = Vec::with_capacity(alloc, self.count)?;
        let seats = self.seats(alloc)?;
        Ok(Taker {
            place: place as usize,
            seats,
            taken,
        })
    }

    /// Gathers a taker of this pool, and returns the numbers that it was given, in its order. It allocates no memory,
    /// and takes one or two steps at each queue.
    ///
    /// The numbers of all takers gathered are among the numbers dealt, each at most once. Each occurs exactly once if
    /// all takers were gathered and one of them found all queues empty.
    pub fn gather(&mut self, taker: Taker) -> Vec<Taken>
        requires pool { (weight : ℕ) × IsPool weight self.old × (0 < weight) }
        requires taker { IsTaker taker }
        requires same { taker_queues taker ≡ pool_queues self.old }
        ensures answer { result.items ≡ taker.taken.items }
        ensures gathered { HasGathered self.old taker self.new }
    {
        let Taker {
            place: _,
            seats,
            taken,
        } = taker;
        self.take_in(seats);
        taken
    }

    // Makes a seat at each queue.
    fn seats(&mut self, alloc: Global) -> Result<Vec<Seat>, Memory>
        requires weight { All (λ share. 2 ≤ share.weight) (pool_shares self.old) }
        ensures count { self.new.count ≡ self.old.count }
        ensures queues { pool_queues self.new ≡ pool_queues self.old }
        ensures lighter { IfOk result (λ _. pool_shares self.new ≡ map lightened (pool_shares self.old)) }
        ensures seats { IfOk result (λ seats. map queue_of seats.items ≡ pool_queues self.old) }
        ensures shares { IfOk result (λ seats. map share_of seats.items ≡ map split_off (pool_shares self.old)) }
    {
        let count = self.owners.len();
        let mut seats = Vec::with_capacity(alloc, count)?;
        for place in 0..count {
            let seat = seat_at(&mut self.owners[place])?;
            seats.push(seat)?;
        }
        Ok(seats)
    }

    // Joins each seat into the owner of its queue.
    fn take_in(&mut self, mut seats: Vec<Seat>)
        requires weight { All (λ share. 0 < share.weight) (pool_shares self.old) }
        requires other { All (λ share. 0 < share.weight) (map share_of seats.items) }
        requires same { map queue_of seats.items ≡ pool_queues self.old }
        ensures count { self.new.count ≡ self.old.count }
        ensures queues { pool_queues self.new ≡ pool_queues self.old }
        ensures joined { AreJoined (pool_shares self.old) (map share_of seats.items) 0 (pool_shares self.new) }
    {
        while let Some(seat) = seats.pop() {
            join_at(&mut self.owners[seats.len()], seat);
        }
    }
}
