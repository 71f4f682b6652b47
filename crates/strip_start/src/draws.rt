// Random changes.
ghost use Rattle.std.specs.Prelude.{◌<◌, ◌≤◌};

use crate::change::Change;
use rand_core::utils::NextWord;
use rand_pcg::Pcg32;
use strip_film::MAX_COUNT;

/// The generator's stream in the first run; each further run has the next one. Seed and streams are fixed, so a film is
/// always varied in the same way.
const FIRST_STREAM: u64 = 54;

/// A source of random changes.
#[derive(Drop)]
pub(crate) struct Draws {
    words: Pcg32,
}

impl Draws {
    /// Makes the source for the run of this number, 0 for the first.
    pub(crate) fn of_run(run: usize) -> Draws {
        Draws {
            words: Pcg32::new(0, FIRST_STREAM.wrapping_add(run as u64)),
        }
    }

    /// Draws a change of an order of `count` scenes: a scene moved, several scenes moved together, or a piece reversed.
    /// Several are at least two, and at most a third of all and one more. Returns none if the two places drawn are
    /// equal.
    pub(crate) fn draw(&mut self, count: usize) -> Option<Change>
        requires { (3 ≤ count) × (count ≤ MAX_COUNT) }
    {
        let kind = self.words.next_word() % 3;
        if kind == 2 {
            let one = self.below(count);
            let other = self.below(count);
            return Change::turned(one, other);
        }
        let size = if kind == 0 {
            1
        } else {
            2 + self.below(count / 3)
        };
        let places = count - size + 1;
        let from = self.below(places);
        let to = self.below(places);
        Change::moved(size, from, to)
    }

    /// Draws a number below `count`.
    fn below(&mut self, count: usize) -> usize
        requires { (0 < count) × (count ≤ MAX_COUNT) }
        ensures { result < count }
    {
        let word = u64::from(self.words.next_word());
        ((word * count as u64) >> 32) as usize
    }
}
