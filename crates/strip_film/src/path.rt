// Partial schedules (paths).
ghost use Rattle.std.specs.Prelude.{◌≡◌, ◌+◌, ◌<◌, ◌≤◌, ◌^◌, true, [], ◌∷◌, ◌++◌, length, All};
ghost use Rattle.strip_mask.specs.Set.{has, with, without};
ghost use Rattle.strip_film.specs.declared.limits.TheConstants.{MAX_COUNT};
ghost use Rattle.strip_film.specs.Film.{all_scenes};
ghost use Rattle.strip_film.specs.Shoot.{ready, step_cost};
ghost use Rattle.strip_film.specs.Path.{PathData, IsPath, extended};

use crate::film::Film;
use crate::limits::MAX_COUNT;
use crate::shoot::step;
use strip_mask::Mask;

/// A path (partial schedule): the scenes shot so far in order, the scenes that remain, and the pay so far. It is a
/// fixed array, so that extending it is a copy.
#[derive(Clone, Copy, Debug)]
pub struct Path {
    list: [u8; MAX_COUNT],
    len: usize,
    rest: Mask,
    paid: u64,
    pub ghost short: { len ≤ MAX_COUNT },
}

impl Path {
    ghost use Rattle.strip_film.specs.Shown.{path_data};

    /// Makes the empty path: no scene is shot, and all remain.
    pub fn start(film: &Film) -> Path
        ensures start { path_data result ≡ record { scenes = []; rest = all_scenes film.now; paid = 0 } }
        ensures path { IsPath film.now (path_data result) }
    {
        Path {
            list: [0; MAX_COUNT],
            len: 0,
            rest: film.all(),
            paid: 0,
        }
    }

    /// Returns the scenes shot, in order.
    pub fn scenes(&self) -> &[u8]
        ensures { result.now ≡ (path_data self.now).scenes }
    {
        &self.list[..self.len]
    }

    /// Returns the scenes that remain.
    pub fn rest(&self) -> Mask
        ensures { result.0 ≡ (path_data self.now).rest }
    {
        self.rest
    }

    /// Returns the pay so far: the sum of the steps, in units of money.
    pub fn paid(&self) -> u64
        ensures { result ≡ (path_data self.now).paid }
    {
        self.paid
    }

    /// Returns the path extended by scene `s`, a ready scene of those that remain. It costs a copy and the time of
    /// `step`.
    pub fn extend(&self, film: &Film, s: u32) -> Path
        requires path { IsPath film.now (path_data self.now) }
        requires ready { has (ready film.now (path_data self.now).rest) s ≡ true }
        ensures extended { path_data result ≡ extended film.now (path_data self.now) s }
        ensures path { IsPath film.now (path_data result) }
    {
        film.keeps_limits();
        self.extend_with(film, s, step(film, self.rest, s))
    }

    /// Returns the path extended by scene `s`, whose step cost is given, in units of money. It costs a copy alone.
    pub fn extend_with(&self, film: &Film, s: u32, step: u64) -> Path
        requires path { IsPath film.now (path_data self.now) }
        requires ready { has (ready film.now (path_data self.now).rest) s ≡ true }
        requires step { step ≡ step_cost film.now (path_data self.now).rest s }
        ensures extended { path_data result ≡ extended film.now (path_data self.now) s }
        ensures path { IsPath film.now (path_data result) }
    {
        film.keeps_limits();
        let mut next = *self;
        next.push(s, step);
        next
    }

    /// Appends scene `s` in place, at cost `step`.
    pub(crate) fn push(&mut self, s: u32, step: u64)
        requires scene { s < MAX_COUNT }
        requires room { length (path_data self.old).scenes < MAX_COUNT }
        requires sum { (path_data self.old).paid + step < 2 ^ 64 }
        ensures { path_data self.new ≡ record {
          scenes = (path_data self.old).scenes ++ s ∷ [];
          rest = without (path_data self.old).rest s;
          paid = (path_data self.old).paid + step;
        } }
    {
        self.paid += step;
        self.rest = self.rest.without(s);
        self.list[self.len] = s as u8;
        self.len += 1;
    }

    /// Removes the last scene in place and returns it. The caller gives the pay before that scene as `paid`.
    pub(crate) fn pop(&mut self, paid: u64) -> u32
        requires some { 0 < length (path_data self.old).scenes }
        requires known { All (λ scene. scene < MAX_COUNT) (path_data self.old).scenes }
        ensures scenes { (path_data self.old).scenes ≡ (path_data self.new).scenes ++ result ∷ [] }
        ensures rest { (path_data self.new).rest ≡ with (path_data self.old).rest result }
        ensures paid { (path_data self.new).paid ≡ paid }
    {
        self.len -= 1;
        let s = self.list[self.len] as u32;
        self.rest = self.rest.with(s);
        self.paid = paid;
        s
    }
}
