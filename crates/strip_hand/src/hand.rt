// The trait of a worker's view of a search.
ghost use Rattle.std.specs.Prelude.{◌≡◌, ℕ, ◌≤◌};
ghost use Rattle.strip_film.specs.Film.{LiesIn};
ghost use Rattle.strip_film.specs.Path.{IsComplete};
ghost use Rattle.strip_film.specs.Shown.{cursor_data, path_data};
ghost use Rattle.strip_hand.specs.Hand.{HandData, IsHand, Knows};
ghost use Rattle.strip_hand.specs.Calls.{Claims, Enlists, MayEnlist, MayRaise, Notes, Probes, Raises, Tells};

use crate::tally::Tally;
use strip_film::{Cursor, Known, Listed, Noted, Path, Probe};
use strip_io::Memory;
use strip_mask::Mask;

/// The hand of one worker: its view of the state that all workers share. Each call is one event on that state. A hand's
/// knowledge is monotone: other workers cannot invalidate it. A call returns `Memory` only if its count of refusals
/// rose in that call.
pub trait Hand {
    /// The hand's record: what it knows, what it was told, and its own events.
    ghost shows: { Self → HandData };

    /// The precondition of every call, which every call keeps.
    ghost is_sound: { Self → Type 0 };

    /// The identity of the shared state behind the hand, which no call changes.
    ghost Home: { Type 0 };

    ghost home: { Self → Home };

    /// A law: the record of a sound hand is valid. The call does nothing when it runs.
    fn keeps_limits(&self)
        requires { is_sound self.now }
        ensures { IsHand (shows self.now) };

    /// Returns the progress of the search. Other workers may have changed it meanwhile.
    fn tally(&self) -> Tally
        requires { is_sound self.now }
        ensures lines { result.lines ≤ result.nodes }
        ensures nodes { result.nodes ≡ (shows self.now).search.nodes };

    /// Returns the incumbent: the least cost that any worker offered, in units of money.
    fn look(&mut self) -> u64
        requires { is_sound self.old }
        ensures sound { is_sound self.new }
        ensures home { home self.new ≡ home self.old }
        ensures told { Tells (shows self.old) result (shows self.new) };

    /// Offers a complete path, and returns the least cost then, in units of money. It is at most the path's pay.
    fn offer(&mut self, path: &Path) -> u64
        requires sound { is_sound self.old }
        requires complete { IsComplete (shows self.old).search.film (path_data path.now) }
        ensures sound { is_sound self.new }
        ensures home { home self.new ≡ home self.old }
        ensures told { Tells (shows self.old) result (shows self.new) }
        ensures offered { result ≤ (path_data path.now).paid };

    /// Claims the next unclaimed part of the search, or none if no part is left. Part 0, the front, comes first.
    fn claim(&mut self) -> Option<u32>
        requires { is_sound self.old }
        ensures sound { is_sound self.new }
        ensures home { home self.new ≡ home self.old }
        ensures claimed { Claims (shows self.old) result (shows self.new) };

    /// Enlists a path of the cursor's part: makes a line of the scenes that remain after it, with their static bound,
    /// and moves the cursor to the path. If the line budget is used up, it returns `Spent` and makes no line.
    fn enlist(&mut self, cursor: &mut Cursor, path: &Path, bound: u64) -> Result<Listed, Memory>
        requires sound { is_sound self.old }
        requires may { MayEnlist (shows self.old) (cursor_data cursor.old) (path_data path.now) bound }
        ensures sound { is_sound self.new }
        ensures home { home self.new ≡ home self.old }
        ensures listed { Enlists (shows self.old) (cursor_data cursor.old) (path_data path.now) bound result
            (shows self.new) (cursor_data cursor.new) };

    /// Raises the bound of a line to at least `bound`.
    fn raise(&mut self, line: u32, bound: u64) -> Result<(), Memory>
        requires sound { is_sound self.old }
        requires may { MayRaise (shows self.old) line bound }
        ensures sound { is_sound self.new }
        ensures home { home self.new ≡ home self.old }
        ensures raised { Raises (shows self.old) line bound result (shows self.new) };

    /// Looks up a set in the transposition table.
    fn probe(&mut self, set: Mask) -> Result<Probe, Memory>
        requires sound { is_sound self.old }
        requires lies { LiesIn (shows self.old).search.film set.0 }
        ensures sound { is_sound self.new }
        ensures home { home self.new ≡ home self.old }
        ensures probed { Probes (shows self.old) set.0 result (shows self.new) };

    /// Inserts a known line into the transposition table.
    fn note(&mut self, known: &Known) -> Result<Noted, Memory>
        requires sound { is_sound self.old }
        requires known { Knows (shows self.old).lines known.now }
        ensures sound { is_sound self.new }
        ensures home { home self.new ≡ home self.old }
        ensures noted { Notes (shows self.old) known.now result (shows self.new) };
}
