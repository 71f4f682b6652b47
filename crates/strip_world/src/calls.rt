// The effects of the seven events.
ghost use Rattle.std.specs.Prelude.{◌≡◌, ◌<◌, ◌^◌, [], ◌∷◌, ◌++◌, length};
ghost use Rattle.strip_film.specs.Shown.{path_data};
ghost use Rattle.strip_bound.specs.Bounds.{bound as static_bound};
ghost use Rattle.strip_world.specs.Sound.{IsSound};
ghost use Rattle.strip_world.specs.Steps.{IsNoted, claim_reply, claimed, enlist_reply, enlisted, found, looked, offered, probed, raised_in};

use crate::state::Asked;
use crate::world::World;
use strip_film::{Known, Line, Listed, Noted, Path, Probe};
use strip_mask::Mask;
use strip_table::stripe_of;

impl World {
    /// Tells worker `who` the least cost (look).
    pub(crate) fn look_as(&mut self, who: u32) -> u64
        requires { who < length self.old.workers }
        ensures world { self.new ≡ looked self.old who }
        ensures least { result ≡ self.old.least }
    {
        self.workers[who as usize].told = self.least;
        self.least
    }

    /// Offers a complete path, which worker `who` keeps if it is its best, and tells it the least cost.
    pub(crate) fn offer_as(&mut self, who: u32, path: &Path) -> u64
        requires { who < length self.old.workers }
        ensures world { self.new ≡ offered self.old who (path_data path.now) }
        ensures least { result ≡ self.new.least }
    {
        self.least = self.least.min(path.paid());
        self.workers[who as usize].keep(path, self.least);
        self.least
    }

    /// Gives the next part to worker `who`, if one is left. Part 0 is the front; the others are tasks.
    pub(crate) fn claim_as(&mut self, who: u32) -> Option<u32>
        requires { length self.old.parts < 2 ^ 32 }
        ensures world { self.new ≡ claimed self.old who }
        ensures task { result ≡ claim_reply self.old }
    {
        let task = self.next;
        if task as usize >= self.parts.len() {
            return None;
        }
        self.parts[task as usize].claimer = Some(who);
        self.next += 1;
        Some(task)
    }

    /// Enlists a path in a part: makes a line of the remaining set with its static bound `bound`, unless the line
    /// budget is used up.
    pub(crate) fn enlist_as(&mut self, task: u32, path: &Path, bound: u64) -> Listed
        requires sound { IsSound self.old }
        requires task { task < length self.old.parts }
        requires bound { bound ≡ static_bound self.old.search.kind self.old.search.film (path_data path.now).rest }
        ensures world { self.new ≡ enlisted self.old task (path_data path.now) }
        ensures listed { result ≡ enlist_reply self.old }
    {
        let lines = self.lines.len() as u32;
        if lines == self.nodes {
            return Listed::Spent { lines };
        }
        self.push_line(path.rest(), bound);
        self.parts[task as usize].enlist(path);
        Listed::Line(lines)
    }

    /// Raises a line's bound to `bound`, if that is greater.
    pub(crate) fn raise_as(&mut self, line: u32, bound: u64)
        requires { line < length self.old.lines }
        ensures { self.new ≡ raised_in self.old line bound }
    {
        let line = &mut self.lines[line as usize];
        line.bound = line.bound.max(bound);
    }

    /// Looks up a set in the table for worker `who` (probe).
    pub(crate) fn probe_as(&mut self, who: u32, set: Mask) -> Probe
        requires sound { IsSound self.old }
        requires who { who < length self.old.workers }
        ensures world { self.new ≡ probed self.old who set.0 }
        ensures answer { result ≡ found self.old set.0 }
    {
        let answer = self.ask(set);
        self.workers[who as usize].asked = Some(Asked { set: set.0, answer });
        answer
    }

    /// Inserts a known line into the table for worker `who` (note).
    pub(crate) fn note_as(&mut self, who: u32, known: &Known) -> Noted
        requires sound { IsSound self.old }
        requires who { who < length self.old.workers }
        ensures { IsNoted self.old who known.now self.new result }
    {
        self.workers[who as usize].note = Some(*known);
        self.stripes[stripe_of(known.set) as usize].put(known)
    }

    /// Returns the table's entry of a set.
    fn ask(&self, set: Mask) -> Probe
        requires { IsSound self.now }
        ensures { result ≡ found self.now set.0 }
    {
        match self.stripes[stripe_of(set.0) as usize].find(set.0) {
            Some(known) => Probe::Hit(known),
            None => Probe::Miss,
        }
    }

    /// Appends a line, for which room is reserved.
    fn push_line(&mut self, set: Mask, bound: u64)
        requires { length self.old.lines < self.old.search.nodes }
        ensures { self.new ≡ record self.old { lines = self.old.lines ++ record { set = set.0; bound = bound } ∷ [] } }
    {
        match self.lines.push(Line { set: set.0, bound }) {
            Ok(()) => (),
            Err(_) => unreachable!(),
        }
    }
}
