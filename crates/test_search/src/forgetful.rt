// A hand without table entries.
ghost use Rattle.std.specs.Prelude.{◌≡◌, ◌≤◌, ℕ, length};
ghost use Rattle.strip_film.specs.Film.{LiesIn};
ghost use Rattle.strip_film.specs.Path.{IsComplete};
ghost use Rattle.strip_film.specs.Shown.{cursor_data, path_data};
ghost use Rattle.strip_hand.specs.Calls.{Claims, Enlists, MayEnlist, MayRaise, Notes, Probes, Raises, Tells};
ghost use Rattle.strip_hand.specs.Hand.{IsHand, Knows};
ghost use Rattle.test_search.specs.Forgetful.{noting};
ghost use Rattle.strip_world.specs.Hand.{IsOwned};

use strip_film::{Cursor, Known, Listed, Noted, Path, Probe};
use strip_hand::{Hand, Tally};
use strip_io::Memory;
use strip_mask::Mask;
use strip_world::World;

/// The hand of a world's worker 0 that drops its notes: no entry comes into the table.
#[derive(Drop)]
pub(crate) struct Forgetful {
    pub(crate) world: World,
    pub(crate) last_note: Option<Known>,
}

impl Hand for Forgetful {
    ghost shows = { λ f. noting f.world f.last_note };

    ghost is_sound = { λ f. IsOwned f.world };

    ghost Home = { ℕ };

    ghost home = { λ f. length f.world.workers };

    fn keeps_limits(&self)
        requires { IsOwned self.now.world }
        ensures { IsHand (noting self.now.world self.now.last_note) }
    {
        self.world.keeps_limits();
    }

    fn tally(&self) -> Tally
        requires { IsOwned self.now.world }
        ensures lines { result.lines ≤ result.nodes }
        ensures nodes { result.nodes ≡ self.now.world.search.nodes }
    {
        self.world.tally()
    }

    fn look(&mut self) -> u64
        requires { IsOwned self.old.world }
        ensures sound { IsOwned self.new.world }
        ensures home { length self.new.world.workers ≡ length self.old.world.workers }
        ensures told { Tells (noting self.old.world self.old.last_note) result
            (noting self.new.world self.new.last_note) }
    {
        self.world.look()
    }

    fn offer(&mut self, path: &Path) -> u64
        requires sound { IsOwned self.old.world }
        requires complete { IsComplete self.old.world.search.film (path_data path.now) }
        ensures sound { IsOwned self.new.world }
        ensures home { length self.new.world.workers ≡ length self.old.world.workers }
        ensures told { Tells (noting self.old.world self.old.last_note) result
            (noting self.new.world self.new.last_note) }
        ensures offered { result ≤ (path_data path.now).paid }
    {
        self.world.offer(path)
    }

    fn claim(&mut self) -> Option<u32>
        requires { IsOwned self.old.world }
        ensures sound { IsOwned self.new.world }
        ensures home { length self.new.world.workers ≡ length self.old.world.workers }
        ensures claimed { Claims (noting self.old.world self.old.last_note) result
            (noting self.new.world self.new.last_note) }
    {
        self.world.claim()
    }

    fn enlist(&mut self, cursor: &mut Cursor, path: &Path, bound: u64) -> Result<Listed, Memory>
        requires sound { IsOwned self.old.world }
        requires may { MayEnlist (noting self.old.world self.old.last_note) (cursor_data cursor.old)
            (path_data path.now) bound }
        ensures sound { IsOwned self.new.world }
        ensures home { length self.new.world.workers ≡ length self.old.world.workers }
        ensures listed { Enlists (noting self.old.world self.old.last_note) (cursor_data cursor.old)
            (path_data path.now) bound result (noting self.new.world self.new.last_note) (cursor_data cursor.new) }
    {
        self.world.enlist(cursor, path, bound)
    }

    fn raise(&mut self, line: u32, bound: u64) -> Result<(), Memory>
        requires sound { IsOwned self.old.world }
        requires may { MayRaise (noting self.old.world self.old.last_note) line bound }
        ensures sound { IsOwned self.new.world }
        ensures home { length self.new.world.workers ≡ length self.old.world.workers }
        ensures raised { Raises (noting self.old.world self.old.last_note) line bound result
            (noting self.new.world self.new.last_note) }
    {
        self.world.raise(line, bound)
    }

    fn probe(&mut self, set: Mask) -> Result<Probe, Memory>
        requires sound { IsOwned self.old.world }
        requires lies { LiesIn self.old.world.search.film set.0 }
        ensures sound { IsOwned self.new.world }
        ensures home { length self.new.world.workers ≡ length self.old.world.workers }
        ensures probed { Probes (noting self.old.world self.old.last_note) set.0 result
            (noting self.new.world self.new.last_note) }
    {
        self.world.probe(set)
    }

    fn note(&mut self, known: &Known) -> Result<Noted, Memory>
        requires sound { IsOwned self.old.world }
        requires known { Knows self.old.world.lines known.now }
        ensures sound { IsOwned self.new.world }
        ensures home { length self.new.world.workers ≡ length self.old.world.workers }
        ensures noted { Notes (noting self.old.world self.old.last_note) known.now result
            (noting self.new.world self.new.last_note) }
    {
        self.last_note = Some(*known);
        Ok(Noted::Fresh)
    }
}
