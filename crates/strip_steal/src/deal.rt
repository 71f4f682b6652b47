// Filling the queues of a pool.
ghost use Rattle.std.specs.Prelude.{◌≡◌, ◌≤◌, ◌<◌, ℕ, false, [], ◌∷◌, None, replicate, IfOk, OnOk};
ghost use Rattle.crossbeam_deque.specs.Handles.{worker_view};
ghost use Rattle.strip_steal.specs.Rule.{first_share, full_weight, times};
ghost use Rattle.strip_steal.specs.Steps.{with_entries};
ghost use Rattle.strip_steal.specs.Taker.{AreDealt, IsPool, dealt, entries_in, handed_in, pool_shares, taken_in};

use crate::queues::Pool;
use crate::rule::Put;
use crate::seat::Owner;
use std::alloc::Global;
use strip_io::Memory;

/// Makes a queue for each of `workers` workers, 1 to 64, and deals the numbers in turn. The number at place `i` goes
/// into queue `i` modulo `workers`. Each queue ends with one sentinel (end) for each worker. The numbers must differ
/// from each other. Time is the number of numbers plus the square of `workers`. It fails only if memory runs out.
pub fn pool(alloc: Global, workers: u32, numbers: &[u32]) -> Result<Pool, Memory>
    requires workers { (1 ≤ workers) × (workers ≤ 64) }
    requires once { (number : ℕ) → times number numbers.now ≤ 1 }
    ensures pool { IfOk result (IsPool full_weight) }
    ensures dealt { IfOk result (λ pool. AreDealt workers numbers.now (pool_shares pool)) }
    ensures handed { IfOk result (λ pool. (number : ℕ)
        → times number (handed_in (pool_shares pool)) ≡ times number numbers.now) }
    ensures untaken { IfOk result (λ pool. (number : ℕ) → times number (taken_in (pool_shares pool)) ≡ 0) }
{
    let count = workers as usize;
    let mut owners = Vec::with_capacity(alloc, count)?;
    for place in 0..count {
        let owner = filled(alloc, numbers, count, place)?;
        owners.push(owner)?;
    }
    Ok(Pool {
        owners,
        count: numbers.len(),
    })
}

// Makes the queue at this place, with its numbers and ends.
fn filled(alloc: Global, numbers: &[u32], count: usize, place: usize) -> Result<Owner, Memory>
    requires count { (0 < count) × (count ≤ 64) }
    requires place { place < count }
    ensures { IfOk result (λ owner. worker_view owner ≡ dealt count numbers.now place) }
{
    let room = numbers.len() / count + 1 + count;
    let mut owner = Owner::fifo_as(alloc, room)?;
    put_numbers(&mut owner, numbers, count, place)?;
    put_ends(&mut owner, count)?;
    Ok(owner)
}

// Puts every `count`-th number, from this place on.
fn put_numbers(owner: &mut Owner, numbers: &[u32], count: usize, place: usize) -> Result<(), Memory>
    requires count { (0 < count) × (count ≤ 64) }
    requires place { place < count }
    requires first { worker_view owner.old ≡ first_share }
    ensures { OnOk result (worker_view owner.new ≡ with_entries first_share (entries_in count numbers.now place)) }
{
    let mut at = place;
    while at < numbers.len() {
        put(owner, Some(numbers[at]))?;
        at += count;
    }
    Ok(())
}

// Puts `count` ends.
fn put_ends(owner: &mut Owner, count: usize) -> Result<(), Memory>
    requires weight { (worker_view owner.old).weight ≡ full_weight }
    requires still { (worker_view owner.old).ended ≡ false }
    ensures { OnOk result (worker_view owner.new ≡ with_entries (worker_view owner.old) (replicate count None)) }
{
    for _turn in 0..count {
        put(owner, None)?;
    }
    Ok(())
}

// Puts one entry.
fn put(owner: &mut Owner, entry: Option<u32>) -> Result<(), Memory>
    requires weight { (worker_view owner.old).weight ≡ full_weight }
    requires still { (worker_view owner.old).ended ≡ false }
    ensures { OnOk result (worker_view owner.new ≡ with_entries (worker_view owner.old) (entry ∷ [])) }
{
    match owner.push_as::<Put>(entry) {
        Ok(()) => Ok(()),
        Err(_) => Err(Memory),
    }
}
