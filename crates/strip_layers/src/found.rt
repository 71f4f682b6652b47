// Static bounds that a search by layers computed.
ghost use Rattle.strip_layers.specs.Search.{AreTrue};

use indexmap::IndexMap;
use strip_bound::{Bounds, Room};
use strip_film::Film;
use strip_mask::Mask;
use strip_model::Kind;

/// A lower bound of a set's static bound, in units of money, and whether it equals the static bound.
#[derive(Clone, Copy, Debug)]
pub(crate) struct Lowest {
    pub value: u64,
    pub is_whole: bool,
}

/// The static bounds that a search by layers computed: for each requested set, a number that is at most its static
/// bound.
#[derive(Debug, Drop)]
pub struct Found {
    pub(crate) values: IndexMap<u64, Lowest>,
}

/// The static bounds that a search by layers computed, and of another source where they don't suffice.
#[derive(Drop)]
pub struct FoundBounds<'l, B: Bounds> {
    found: &'l Found,
    bounds: &'l B,
    pub ghost are_true: { AreTrue B.kind B.film found.now.values.entries },
}

impl<'l, B: Bounds> FoundBounds<'l, B> {
    /// Makes the bounds of what was found, and of the source that was asked.
    pub fn new(found: &'l Found, bounds: &'l B) -> FoundBounds<'l, B>
        requires { AreTrue B.kind B.film found.now.values.entries }
    {
        FoundBounds { found, bounds }
    }
}

impl<'l, B: Bounds> Bounds for FoundBounds<'l, B> {
    ghost film = { B.film };

    ghost kind = { B.kind };

    fn film(&self) -> &Film {
        self.bounds.film()
    }

    fn kind(&self) -> Kind {
        self.bounds.kind()
    }

    /// It takes the number found in the search if that suffices, and asks the other source otherwise.
    fn reach(&self, q: Mask, need: u64, room: &mut Room) -> u64 {
        match self.found.values.get(&q.0) {
            Some(lowest) if lowest.value >= need || lowest.is_whole => lowest.value,
            _ => self.bounds.reach(q, need, room),
        }
    }
}
