// Requests for static bounds of sets.
ghost use Rattle.std.specs.Prelude.{◌≡◌, All, IfOk};
ghost use Rattle.strip_film.specs.Film.{LiesIn};
ghost use Rattle.strip_bound.specs.Bounds.{bound};
ghost use Rattle.strip_layers.specs.Asks.{AreAnswered, IsAnswer};

use strip_bound::{Bounds, Room};
use strip_film::Film;
use strip_io::Memory;
use strip_mask::Mask;

/// A request for a lower bound of a set of remaining scenes. `need` is the bound that suffices, in units of money. If
/// `is_known` holds, `value` is used and nothing is computed.
#[derive(Clone, Copy, Debug)]
pub struct Ask {
    pub set: u64,
    pub need: u64,
    pub is_known: bool,
    pub value: u64,
}

/// A source of static bounds for the sets of a layer: one worker, or several in parallel.
pub trait Answers {
    ghost use Rattle.strip_model.specs.declared.kind.Kind.{Kind};
    ghost use Rattle.strip_model.specs.Film.{FilmData};

    /// The film of the sets.
    ghost film: { FilmData };

    /// The kind of the static bounds.
    ghost kind: { Kind };

    /// The precondition of `answer`.
    ghost is_ready: { Self → Type 0 };

    /// Returns the film of the sets.
    fn film(&self) -> &Film
        ensures { result.now ≡ film };

    /// Returns the static bound of a set, in units of money.
    fn bound(&self, set: Mask) -> u64
        requires { LiesIn film set.0 }
        ensures { result ≡ bound kind film set.0 };

    /// Fills in the value of each request that isn't known. The value is at most the set's static bound, and it is the
    /// bound or reaches `need`.
    fn answer(&self, asks: &mut [Ask]) -> Result<(), Memory>
        requires ready { is_ready self.now }
        requires lies { All (λ ask. LiesIn film ask.set) asks.old }
        ensures { IfOk result (λ _. AreAnswered kind film asks.old asks.new) };
}

/// One worker, who answers the requests in turn.
#[derive(Drop)]
pub struct Alone<'k, B: Bounds> {
    pub bounds: &'k B,
}

impl<'k, B: Bounds> Answers for Alone<'k, B> {
    ghost film = { B.film };

    ghost kind = { B.kind };

    ghost is_ready = { λ alone. Unit {0} };

    fn film(&self) -> &Film {
        self.bounds.film()
    }

    fn bound(&self, set: Mask) -> u64 {
        self.bounds.whole(set)
    }

    fn answer(&self, asks: &mut [Ask]) -> Result<(), Memory> {
        answer_in_turn(self.bounds, asks);
        Ok(())
    }
}

/// Answers each request that isn't known, in turn, with one bound.
pub fn answer_in_turn<B: Bounds>(bounds: &B, asks: &mut [Ask])
    requires lies { All (λ ask. LiesIn B.film ask.set) asks.old }
    ensures { AreAnswered B.kind B.film asks.old asks.new }
{
    let mut room = Room::new();
    for ask in asks.iter_mut() {
        answer_one(bounds, ask, &mut room);
    }
}

/// Answers a request, if its value isn't known.
fn answer_one<B: Bounds>(bounds: &B, ask: &mut Ask, room: &mut Room)
    requires lies { LiesIn B.film ask.old.set }
    ensures { IsAnswer B.kind B.film ask.old ask.new }
{
    if !ask.is_known {
        ask.value = bounds.reach(Mask(ask.set), ask.need, room);
    }
}
