// Results of the walks of the tasks so far.
ghost use Rattle.std.specs.Prelude.{◌≡◌, ◌<◌, ◌||◌, ℕ, false, List, IfOk, length, max, replicate, slice_index};
ghost use Rattle.strip_hand.specs.Hand.{HandData};
ghost use Rattle.strip_front.specs.Front.{FrontData};
ghost use Rattle.strip_front.specs.Shown.{front_data};
ghost use Rattle.strip_worker.specs.Team.{HasWorked, IsFresh, TakesOver};

use std::alloc::Global;
use strip_front::Front;
use strip_io::Memory;

/// For each task a lower bound of its remaining cost, in units of money, or 0 if it has no result; and whether the
/// front or a walk was cut short.
#[derive(Debug, Drop)]
pub struct Walked {
    pub found: Vec<u64>,
    pub spent: bool,
}

impl Walked {
    /// Returns a worker's initial results: 0 for each task of the front, and nothing cut short. They fit a worker that
    /// has claimed nothing, if another hand went down the front and wasn't cut short.
    pub fn new(alloc: Global, front: &Front) -> Result<Walked, Memory>
        ensures found { IfOk result (λ walked. walked.found.items ≡ replicate (length (front_data front.now).tasks) 0) }
        ensures spent { IfOk result (λ walked. walked.spent ≡ false) }
        ensures worked { IfOk result (λ walked. (hand fresh : HandData) (found : List ℕ)
            → HasWorked hand (front_data front.now) found false → IsFresh hand fresh
            → HasWorked fresh (front_data front.now) walked.found.items walked.spent) }
    {
        let found = vec![in alloc; 0; front.tasks().len()]?;
        Ok(Walked {
            found,
            spent: false,
        })
    }
}

/// Merges two workers' results: the greater bound of each task; `spent` if either was. If each hand has worked with its
/// results, a hand that takes over from both has worked with the merged ones. It takes a turn for each task.
pub fn merge(into: &mut Walked, from: &Walked)
    requires { length into.old.found.items ≡ length from.now.found.items }
    ensures long { length into.new.found.items ≡ length into.old.found.items }
    ensures greater { (task : ℕ) → task < length into.old.found.items
        → slice_index into.new.found.items task
        ≡ max (slice_index into.old.found.items task) (slice_index from.now.found.items task) }
    ensures spent { into.new.spent ≡ (into.old.spent || from.now.spent) }
    ensures worked { (one other both : HandData) (front : FrontData)
        → HasWorked one front into.old.found.items into.old.spent
        → HasWorked other front from.now.found.items from.now.spent
        → TakesOver one other both → HasWorked both front into.new.found.items into.new.spent }
{
    for task in 0..into.found.len() {
        into.found[task] = into.found[task].max(from.found[task]);
    }
    into.spent |= from.spent;
}
