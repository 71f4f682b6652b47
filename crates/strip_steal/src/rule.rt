// The invariant of a queue, and the kinds of steps on it.
use crate::share::Share;
use crossbeam_deque::protocol::{Join, Lesson, Outcome, Protocol, Split};

/// The invariant of a queue's entries and of the knowledge of all passes, which every step keeps.
pub struct Rule;

impl Protocol<Option<u32>, Share> for Rule {
    ghost use Rattle.strip_steal.specs.Rule.{IsQueue, first_share};
    ghost use Rattle.strip_steal.specs.Steps.{spent_share};

    ghost holds = { IsQueue };

    ghost first = { first_share };

    ghost guest = { spent_share };
}

/// The step that puts an entry.
pub struct Put;

impl Outcome<Option<u32>, Share> for Put {
    ghost use Rattle.strip_steal.specs.Steps.{HasPut};

    ghost then = { HasPut };
}

/// The step that takes an entry.
pub struct Take;

impl Outcome<Option<u32>, Share> for Take {
    ghost use Rattle.strip_steal.specs.Steps.{HasTakenOne};

    ghost then = { HasTakenOne };
}

/// The read by which a pass learns how often each number was taken with it.
pub struct Count;

impl Lesson<Option<u32>, Share> for Count {
    ghost use Rattle.strip_steal.specs.Steps.{AreCounted};

    ghost fact = { λ share items. AreCounted share };
}

/// The split of a pass: a new one gets a weight of 1.
pub struct Cut;

impl Split<Share> for Cut {
    ghost use Rattle.strip_steal.specs.Steps.{lightened, split_off};

    ghost left = { lightened };

    ghost right = { split_off };
}

/// The join of a pass into another.
pub struct Merge;

impl Join<Share> for Merge {
    ghost use Rattle.strip_steal.specs.Steps.{joined, spent_share};

    ghost both = { joined };

    ghost spent = { spent_share };
}
