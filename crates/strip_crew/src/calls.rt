// The hub as a hand.
ghost use Rattle.std.specs.Prelude.{◌≡◌, ◌≤◌, ℕ};
ghost use Rattle.strip_film.specs.Film.{LiesIn};
ghost use Rattle.strip_film.specs.Path.{IsComplete};
ghost use Rattle.strip_film.specs.Shown.{cursor_data, path_data};
ghost use Rattle.strip_hand.specs.Calls.{Claims, Enlists, MayEnlist, MayRaise, Notes, Probes, Raises, Tells};
ghost use Rattle.strip_hand.specs.Hand.{IsHand, Knows};
ghost use Rattle.strip_least.specs.Pass.{Claims as ClaimsNext, known as known_least};
ghost use Rattle.strip_book.specs.Pass.{known};
ghost use Rattle.strip_crew.specs.declared.source.Source.TheVariants.{Counter};
ghost use Rattle.strip_crew.specs.Hub.{HubHome, IsHub, hand_of, home_of};

use crate::asked::Asked;
use crate::hub::Hub;
use crate::source::next_part;
use std::sync::Wait;
use strip_book::laws::{entries_are_records, other_parts_have_no_record};
use strip_film::{Cursor, Known, Listed, Noted, Path, Probe};
use strip_hand::{Hand, Tally};
use strip_io::Memory;
use strip_mask::Mask;
use strip_stripes::Named;

/// Each call takes a few steps on shared state; `tally` only reads it. `probe` and `note` wait for the lock of a
/// stripe. A claim from queues may wait for another worker that takes from the same queue. The other calls never wait.
impl<'a, R: Wait, N: Named> Hand for Hub<'a, R, N> {
    ghost shows = { λ h. hand_of h.source (known_least h.told) (known h.lines) h.asked h.noted };

    ghost is_sound = { λ h. IsHub N.table h.least.now h.book.now h.source h.told h.lines };

    ghost Home = { HubHome };

    ghost home = { λ h. home_of h.least.now h.book.now h.source (known_least h.told) (known h.lines) };

    fn keeps_limits(&self) {
        entries_are_records();
    }

    fn tally(&self) -> Tally {
        let cost = self.least.peek();
        let lines = self.book.peek();
        let nodes = self.book.nodes();
        Tally { cost, lines, nodes }
    }

    fn look(&mut self) -> u64 {
        self.told.look(self.least)
    }

    fn offer(&mut self, path: &Path) -> u64 {
        self.told.offer(self.least, path)
    }

    fn claim(&mut self) -> Option<u32>
        requires { IsHub N.table self.old.least.now self.old.book.now self.old.source self.old.told self.old.lines }
        ensures sound { IsHub N.table self.new.least.now self.new.book.now self.new.source self.new.told self.new.lines }
        ensures home { home_of self.new.least.now self.new.book.now self.new.source (known_least self.new.told)
            (known self.new.lines)
            ≡ home_of self.old.least.now self.old.book.now self.old.source (known_least self.old.told) (known self.old.lines) }
        ensures claimed { Claims (hand_of self.old.source (known_least self.old.told)
            (known self.old.lines) self.old.asked self.old.noted) result
            (hand_of self.new.source (known_least self.new.told) (known self.new.lines) self.new.asked self.new.noted) }
        ensures next { self.old.source ≡ Counter → ClaimsNext (known_least self.old.told) result
            (known_least self.new.told) }
        ensures counter { self.old.source ≡ Counter → self.new.source ≡ Counter }
    {
        other_parts_have_no_record();
        let part = next_part(self.rt, self.least, &mut self.told, &mut self.source)?;
        self.lines.begin(self.book, part);
        Some(part)
    }

    fn enlist(&mut self, cursor: &mut Cursor, path: &Path, bound: u64) -> Result<Listed, Memory> {
        let listed = self.lines.enlist(self.book, cursor.task(), path, bound);
        if let Listed::Line(_) = listed {
            cursor.moved(path);
        }
        Ok(listed)
    }

    fn raise(&mut self, line: u32, bound: u64) -> Result<(), Memory> {
        self.lines.raise(self.book, line, bound);
        Ok(())
    }

    fn probe(&mut self, set: Mask) -> Result<Probe, Memory> {
        let answer = self
            .stripes
            .probe(self.rt, self.book, &mut self.lines, set.0);
        self.asked = Some(Asked { set: set.0, answer });
        Ok(answer)
    }

    fn note(&mut self, known: &Known) -> Result<Noted, Memory> {
        let noted = self
            .stripes
            .note(self.rt, self.book, &mut self.lines, known);
        self.noted = Some(*known);
        Ok(noted)
    }
}
