// Applying one event.
ghost use Rattle.strip_hand.specs.Search.{GoesBy};
ghost use Rattle.strip_world.specs.Allowed.{IsAllowed};
ghost use Rattle.strip_world.specs.Sound.{IsSound};
ghost use Rattle.strip_world.specs.Steps.{Steps};

use crate::event::{Event, Reply};
use crate::laws::steps_keep_worlds_sound;
use crate::world::World;
use strip_bound::Bounds;
use strip_mask::Mask;

impl World {
    /// Applies an allowed event, and returns the reply. It allocates no memory. It takes constant time, and that of the
    /// static bound for an enlisted path.
    pub fn step<B: Bounds>(&mut self, bounds: &B, event: &Event) -> Reply
        requires sound { IsSound self.old }
        requires search { GoesBy B.kind B.film self.old.search }
        requires allowed { IsAllowed self.old event.now }
        ensures steps { Steps self.old event.now self.new result }
        ensures sound { IsSound self.new }
    {
        steps_keep_worlds_sound();
        match event {
            Event::Look { who } => Reply::Least(self.look_as(*who)),
            Event::Offer { who, path } => Reply::Least(self.offer_as(*who, path)),
            Event::Claim { who } => Reply::Task(self.claim_as(*who)),
            Event::Enlist { who: _, task, path } => {
                let bound = self.bound(bounds, path.rest());
                Reply::Listed(self.enlist_as(*task, path, bound))
            }
            Event::Raise {
                who: _,
                line,
                bound,
            } => {
                self.raise_as(*line, *bound);
                Reply::Raised
            }
            Event::Probe { who, set } => Reply::Probed(self.probe_as(*who, Mask(*set))),
            Event::Note { who, known } => Reply::Noted(self.note_as(*who, known)),
        }
    }
}
