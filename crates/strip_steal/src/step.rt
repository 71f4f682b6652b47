// Taking from one queue.
ghost use Rattle.std.specs.Prelude.{◌≡◌, ◌<◌, true, false, Some, None, MatchOption, IfNone};
ghost use Rattle.strip_steal.specs.Seat.{queue_of, share_of};
ghost use Rattle.strip_steal.specs.Steps.{HasTaken, IsClosed, with_taken};

use crate::rule::Take;
use crate::seat::Seat;
use crossbeam_deque::Steal;
use std::sync::Wait;
use std::thread;

impl Seat {
    /// Takes the first number of the queue, or returns none if it finds an end. It waits if another taker is about to
    /// take the entry. There is an end for each taker, so every taker finds one.
    pub(crate) fn take<R: Wait>(&mut self, rt: &R) -> Option<u32>
        requires some_weight { 0 < (share_of self.old).weight }
        requires closed { IsClosed (share_of self.old).put }
        ensures queue { queue_of self.new ≡ queue_of self.old }
        ensures ended { MatchOption result ((share_of self.new).ended ≡ true) (λ _. (share_of self.old).ended ≡ false) }
        ensures taken { MatchOption result
            ((share_of self.new).taken ≡ (share_of self.old).taken)
            (λ number. HasTaken (share_of self.old) (Some number) (share_of self.new)) }
        ensures kept { IfNone result (share_of self.new ≡ with_taken (share_of self.old) None) }
    {
        if self.has_ended {
            return None;
        }
        for _turn in rt.forever() {
            match self.queue.steal_as::<Take>(&mut self.pass) {
                Steal::Success(Some(number)) => return Some(number),
                Steal::Success(None) => {
                    self.has_ended = true;
                    return None;
                }
                Steal::Empty => thread::yield_now(),
                Steal::Retry => {}
            }
        }
        None
    }
}
