// Static bounds as a search asks for them.
ghost use Rattle.std.specs.Prelude.{◌≡◌, ◌+◌, ◌≤◌, ◌⊎◌, true};
ghost use Rattle.strip_mask.specs.Set.{has, without};
ghost use Rattle.strip_film.specs.Film.{LiesIn};
ghost use Rattle.strip_film.specs.Shoot.{step_cost};
ghost use Rattle.strip_bound.specs.Bounds.{bound};
ghost use Rattle.strip_bound.specs.Promise.{promised};

use strip_arrivals::Room;
use strip_film::{Film, step};
use strip_mask::Mask;
use strip_model::Kind;

/// A source of static bounds of one kind for the sets of a film. The type names the film and the kind.
pub trait Bounds {
    ghost use Rattle.strip_model.specs.declared.kind.Kind.{Kind};
    ghost use Rattle.strip_model.specs.Film.{FilmData};

    /// The film of the sets.
    ghost film: { FilmData };

    /// The kind of the bounds.
    ghost kind: { Kind };

    /// Returns the film of the sets.
    fn film(&self) -> &Film
        ensures { result.now ≡ film };

    /// Returns the kind of the bounds.
    fn kind(&self) -> Kind
        ensures { result ≡ kind };

    /// Returns a number that is at most the bound of the set, and at least `need` or the bound, in whole units of
    /// money. The room is scratch memory.
    fn reach(&self, q: Mask, need: u64, room: &mut Room) -> u64
        requires lies { LiesIn film q.0 }
        ensures most { result ≤ bound kind film q.0 }
        ensures reaches { (need ≤ result) ⊎ (result ≡ bound kind film q.0) };

    /// Returns the bound of the set, in whole units of money. The room is scratch memory.
    fn whole_in(&self, q: Mask, room: &mut Room) -> u64
        requires lies { LiesIn film q.0 }
        ensures { result ≡ bound kind film q.0 }
    {
        self.film().keeps_limits();
        self.reach(q, u64::MAX, room)
    }

    /// Returns the bound of the set, in whole units of money. It clears a room if the kind of bounds needs one.
    fn whole(&self, q: Mask) -> u64
        requires lies { LiesIn film q.0 }
        ensures { result ≡ bound kind film q.0 }
    {
        self.whole_in(q, &mut Room::new())
    }
}

/// Returns the promise of a path, by which paths are ranked; the least goes first. `reach` is the path's pay plus
/// the bound of the scenes that remain, in units of money. With the kinds `Plain` and `Pairs` all promises are 0.
pub fn promised(kind: Kind, reach: u64) -> u64
    ensures { result ≡ promised kind reach }
{
    match kind {
        Kind::Plain | Kind::Pairs => 0,
        Kind::Groups | Kind::Arrivals => reach,
    }
}

/// Returns the rank of scene `s` among those of `q` that may be shot first: the promise of its step plus the bound
/// of the rest. It takes at most the time of `step` and one bound.
pub fn rank<B: Bounds>(bounds: &B, q: Mask, s: u32) -> u64
    requires lies { LiesIn B.film q.0 }
    requires member { has q.0 s ≡ true }
    ensures { result ≡ promised B.kind (step_cost B.film q.0 s + bound B.kind B.film (without q.0 s)) }
{
    match bounds.kind() {
        Kind::Plain | Kind::Pairs => 0,
        Kind::Groups | Kind::Arrivals => {
            let film = bounds.film();
            film.keeps_limits();
            step(film, q, s) + bounds.whole(q.without(s))
        }
    }
}
