// The world as the hand of its worker 0.
ghost use Rattle.std.specs.Prelude.{◌≡◌, ◌≤◌, ℕ, Ok, length};
ghost use Rattle.strip_film.specs.declared.shared.Listed.{Listed};
ghost use Rattle.strip_film.specs.declared.shared.Noted.{Noted};
ghost use Rattle.strip_film.specs.declared.shared.Probe.{Probe};
ghost use Rattle.strip_film.specs.Film.{LiesIn};
ghost use Rattle.strip_film.specs.Path.{IsComplete};
ghost use Rattle.strip_film.specs.Shown.{cursor_data, path_data};
ghost use Rattle.strip_hand.specs.Calls.{Claims, Enlists, MayEnlist, MayRaise, Notes, Probes, Raises, Tells};
ghost use Rattle.strip_hand.specs.Hand.{IsHand, Knows};
ghost use Rattle.strip_world.specs.declared.event.Event.TheVariants.{Claim, Enlist, Look, Note, Offer, Probe as Ask, Raise};
ghost use Rattle.strip_world.specs.declared.event.Reply.TheVariants.{Least, Listed as HasListed, Noted as HasNoted, Probed, Raised, Task};
ghost use Rattle.strip_world.specs.Hand.{IsOwned, hand_data};
ghost use Rattle.strip_world.specs.Steps.{Steps};

use crate::world::World;
use strip_film::{Cursor, Known, Listed, Noted, Path, Probe};
use strip_hand::{Hand, Tally};
use strip_io::Memory;
use strip_mask::Mask;
use strip_table::laws::the_entry_of_a_set_is_found;

/// Each call is the event of the same name by worker 0. It allocates no memory and takes constant time.
impl Hand for World {
    ghost shows = { λ w. hand_data w };

    ghost is_sound = { λ w. IsOwned w };

    ghost Home = { ℕ };

    ghost home = { λ w. length w.workers };

    fn keeps_limits(&self)
        requires { IsOwned self.now }
        ensures { IsHand (hand_data self.now) }
    {}

    fn tally(&self) -> Tally
        requires { IsOwned self.now }
        ensures lines { result.lines ≤ result.nodes }
        ensures nodes { result.nodes ≡ self.now.search.nodes }
        ensures least { result.cost ≡ self.now.least }
        ensures all { result.lines ≡ length self.now.lines }
    {
        Tally {
            cost: self.least,
            lines: self.lines.len() as u32,
            nodes: self.nodes,
        }
    }

    fn look(&mut self) -> u64
        requires { IsOwned self.old }
        ensures sound { IsOwned self.new }
        ensures home { length self.new.workers ≡ length self.old.workers }
        ensures told { Tells (hand_data self.old) result (hand_data self.new) }
        ensures step { Steps self.old (Look 0) self.new (Least result) }
    {
        self.look_as(0)
    }

    fn offer(&mut self, path: &Path) -> u64
        requires sound { IsOwned self.old }
        requires complete { IsComplete self.old.search.film (path_data path.now) }
        ensures sound { IsOwned self.new }
        ensures home { length self.new.workers ≡ length self.old.workers }
        ensures told { Tells (hand_data self.old) result (hand_data self.new) }
        ensures offered { result ≤ (path_data path.now).paid }
        ensures step { Steps self.old (Offer 0 path.now) self.new (Least result) }
    {
        self.offer_as(0, path)
    }

    fn claim(&mut self) -> Option<u32>
        requires { IsOwned self.old }
        ensures sound { IsOwned self.new }
        ensures home { length self.new.workers ≡ length self.old.workers }
        ensures claimed { Claims (hand_data self.old) result (hand_data self.new) }
        ensures step { Steps self.old (Claim 0) self.new (Task result) }
    {
        self.claim_as(0)
    }

    fn enlist(&mut self, cursor: &mut Cursor, path: &Path, bound: u64) -> Result<Listed, Memory>
        requires sound { IsOwned self.old }
        requires may { MayEnlist (hand_data self.old) (cursor_data cursor.old) (path_data path.now) bound }
        ensures sound { IsOwned self.new }
        ensures home { length self.new.workers ≡ length self.old.workers }
        ensures listed { Enlists (hand_data self.old) (cursor_data cursor.old) (path_data path.now) bound result
            (hand_data self.new) (cursor_data cursor.new) }
        ensures step { (listed : Listed) × (result ≡ Ok listed)
            × Steps self.old (Enlist 0 (cursor_data cursor.old).task path.now) self.new (HasListed listed) }
    {
        let listed = self.enlist_as(cursor.task(), path, bound);
        if let Listed::Line(_) = listed {
            cursor.moved(path);
        }
        Ok(listed)
    }

    fn raise(&mut self, line: u32, bound: u64) -> Result<(), Memory>
        requires sound { IsOwned self.old }
        requires may { MayRaise (hand_data self.old) line bound }
        ensures sound { IsOwned self.new }
        ensures home { length self.new.workers ≡ length self.old.workers }
        ensures raised { Raises (hand_data self.old) line bound result (hand_data self.new) }
        ensures step { Steps self.old (Raise 0 line bound) self.new Raised }
    {
        self.raise_as(line, bound);
        Ok(())
    }

    fn probe(&mut self, set: Mask) -> Result<Probe, Memory>
        requires sound { IsOwned self.old }
        requires lies { LiesIn self.old.search.film set.0 }
        ensures sound { IsOwned self.new }
        ensures home { length self.new.workers ≡ length self.old.workers }
        ensures probed { Probes (hand_data self.old) set.0 result (hand_data self.new) }
        ensures step { (answer : Probe) × (result ≡ Ok answer) × Steps self.old (Ask 0 set.0) self.new (Probed answer) }
    {
        the_entry_of_a_set_is_found();
        Ok(self.probe_as(0, set))
    }

    fn note(&mut self, known: &Known) -> Result<Noted, Memory>
        requires sound { IsOwned self.old }
        requires known { Knows self.old.lines known.now }
        ensures sound { IsOwned self.new }
        ensures home { length self.new.workers ≡ length self.old.workers }
        ensures noted { Notes (hand_data self.old) known.now result (hand_data self.new) }
        ensures step { (answer : Noted) × (result ≡ Ok answer)
            × Steps self.old (Note 0 known.now) self.new (HasNoted answer) }
    {
        Ok(self.note_as(0, known))
    }
}
