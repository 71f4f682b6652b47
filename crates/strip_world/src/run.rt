// Running a list of events.
ghost use Rattle.std.specs.Prelude.{◌≡◌, ℕ, ◌<◌, ◌≤◌, length, Contains};
ghost use Rattle.strip_model.specs.Pay.{IsOptimum};
ghost use Rattle.strip_film.specs.declared.shared.Known.{Known};
ghost use Rattle.strip_film.specs.Finish.{IsAtMostFinish};
ghost use Rattle.strip_table.specs.Stripe.{bucket_at};
ghost use Rattle.strip_hand.specs.Search.{GoesBy};
ghost use Rattle.strip_world.specs.Sound.{IsSound};
ghost use Rattle.strip_world.specs.Steps.{Runs};
ghost use Rattle.strip_world.specs.World.{stripe_at};

use crate::event::Event;
use crate::laws::a_sound_world_is_true;
use crate::world::World;
use strip_bound::Bounds;

impl World {
    /// Applies the events in turn, up to the first that is not allowed, and returns the number applied. For any list,
    /// each table entry is then a valid lower bound, and the least cost is at least the optimum.
    pub fn run<B: Bounds>(&mut self, bounds: &B, events: &[Event]) -> usize
        requires sound { IsSound self.old }
        requires search { GoesBy B.kind B.film self.old.search }
        ensures runs { Runs self.old events.now result self.new }
        ensures sound { IsSound self.new }
        ensures entries { (stripe bucket : ℕ) (entry : Known) → stripe < 16
            → bucket < length (stripe_at self.new stripe)
            → Contains (bucket_at (stripe_at self.new stripe) bucket) entry
            → IsAtMostFinish self.new.search.film entry.set entry.bound }
        ensures least { (pay : ℕ) → IsOptimum self.new.search.film pay → pay ≤ self.new.least }
    {
        a_sound_world_is_true();
        for count in 0..events.len() {
            let event = &events[count];
            if !self.allows(bounds, event) {
                return count;
            }
            self.step(bounds, event);
        }
        events.len()
    }
}
