// Partial schedules that are updated in place (running states).
ghost use Rattle.std.specs.Prelude.{◌≡◌, ℕ, ◌+◌, ◌<◌, ◌≤◌, ◌==◌, ◌&&◌, cond, true, List, [], ◌∷◌, ◌++◌, length, slice_index};
ghost use Rattle.strip_mask.specs.Set.{LiesBelow, has, without};
ghost use Rattle.strip_film.specs.declared.limits.TheConstants.{MAX_COUNT};
ghost use Rattle.strip_film.specs.Film.{LiesIn, all_scenes};
ghost use Rattle.strip_film.specs.Shoot.{ready, step_cost};
ghost use Rattle.strip_film.specs.Path.{IsPath, extended};
ghost use Rattle.strip_film.specs.Running.{IsRunning, scenes_with};
ghost use Rattle.strip_film.specs.Shown.{path_data};

use crate::film::Film;
use crate::limits::MAX_COUNT;
use crate::path::Path;
use crate::shoot::step_with;
use strip_mask::Mask;

/// The state of a search that shoots scenes and takes them back in place. It has the path, each actor's numbers of
/// scenes shot and left, the actors on location, and the pay before each scene of the path. It allocates no memory.
#[derive(Clone, Copy, Debug)]
pub struct Running {
    path: Path,
    done: [u8; MAX_COUNT],
    left: [u8; MAX_COUNT],
    on: Mask,
    before: [u64; MAX_COUNT],
}

impl Running {
    ghost use Rattle.strip_film.specs.Shown.{running_data};

    /// Makes the state after the scenes of a path. For each actor it goes over the film's scenes; then it calls `take`
    /// for each scene of the path.
    pub fn of(film: &Film, path: &Path) -> Running
        requires { IsPath film.now (path_data path.now) }
        ensures running { IsRunning film.now (running_data result) }
        ensures path { (running_data result).path ≡ path_data path.now }
    {
        film.keeps_limits();
        let mut running = Running::start(film);
        for scene in path.scenes() {
            running.take(film, *scene as u32);
        }
        running
    }

    /// Makes the state in which no scene is shot.
    fn start(film: &Film) -> Running
        ensures running { IsRunning film.now (running_data result) }
        ensures none { (running_data result).path.scenes ≡ [] }
    {
        Running {
            path: Path::start(film),
            done: [0; MAX_COUNT],
            left: scenes_of_each(film),
            on: Mask(0),
            before: [0; MAX_COUNT],
        }
    }

    /// Returns the path: the scenes shot so far.
    pub fn path(&self) -> &Path
        ensures { path_data result.now ≡ (running_data self.now).path }
    {
        &self.path
    }

    /// Returns the scenes that remain.
    pub fn rest(&self) -> Mask
        ensures { result.0 ≡ (running_data self.now).path.rest }
    {
        self.path.rest()
    }

    /// Returns the pay so far: the sum of the steps, in units of money.
    pub fn paid(&self) -> u64
        ensures { result ≡ (running_data self.now).path.paid }
    {
        self.path.paid()
    }

    /// Returns the number of the actor's scenes that are shot. The actor's number is below 64.
    pub fn done(&self, actor: u32) -> u32
        requires { actor < MAX_COUNT }
        ensures { result ≡ slice_index (running_data self.now).done actor }
    {
        self.done[actor as usize] as u32
    }

    /// Returns the number of the actor's scenes that remain. The actor's number is below 64.
    pub fn left(&self, actor: u32) -> u32
        requires { actor < MAX_COUNT }
        ensures { result ≡ slice_index (running_data self.now).left actor }
    {
        self.left[actor as usize] as u32
    }

    /// Returns the actors on location, as a set of actor numbers.
    pub fn on(&self) -> Mask
        ensures { result.0 ≡ (running_data self.now).on }
    {
        self.on
    }

    /// Returns the cost, in units of money, of shooting scene `s` next, which must remain. Time is linear in the number
    /// of actors who are paid.
    pub fn step(&self, film: &Film, s: u32) -> u64
        requires running { IsRunning film.now (running_data self.now) }
        requires remains { has (running_data self.now).path.rest s ≡ true }
        ensures { result ≡ step_cost film.now (running_data self.now).path.rest s }
    {
        film.keeps_limits();
        step_with(film, self.on, s)
    }

    /// Shoots scene `s` next, a ready scene of those that remain. It takes the time of `step`, and two iterations for
    /// each actor of its cast.
    pub fn take(&mut self, film: &Film, s: u32)
        requires running { IsRunning film.now (running_data self.old) }
        requires ready { has (ready film.now (running_data self.old).path.rest) s ≡ true }
        ensures running { IsRunning film.now (running_data self.new) }
        ensures path { (running_data self.new).path ≡ extended film.now (running_data self.old).path s }
    {
        film.keeps_limits();
        let step = self.step(film, s);
        self.take_with(film, s, step);
    }

    /// Shoots scene `s` next, a ready scene, whose step cost is given, in units of money. It takes two iterations for
    /// each actor of its cast.
    pub fn take_with(&mut self, film: &Film, s: u32, step: u64)
        requires running { IsRunning film.now (running_data self.old) }
        requires ready { has (ready film.now (running_data self.old).path.rest) s ≡ true }
        requires step { step ≡ step_cost film.now (running_data self.old).path.rest s }
        ensures running { IsRunning film.now (running_data self.new) }
        ensures path { (running_data self.new).path ≡ extended film.now (running_data self.old).path s }
    {
        film.keeps_limits();
        let cast = Mask(film.casts()[s as usize]);
        self.before[self.path.scenes().len()] = self.path.paid();
        self.path.push(s, step);
        move_counts(&mut self.left, &mut self.done, cast);
        self.on = self.on.union(cast).minus(without_scenes(&self.left, cast));
    }

    /// Takes back the last scene of the path. It takes two iterations for each actor of its cast.
    pub fn back(&mut self, film: &Film)
        requires running { IsRunning film.now (running_data self.old) }
        requires some { 0 < length (running_data self.old).path.scenes }
        ensures running { IsRunning film.now (running_data self.new) }
        ensures path { (last : ℕ) × ((running_data self.old).path.scenes ≡ (running_data self.new).path.scenes
            ++ last ∷ []) }
    {
        film.keeps_limits();
        let paid = self.before[self.path.scenes().len() - 1];
        let s = self.path.pop(paid);
        let cast = Mask(film.casts()[s as usize]);
        move_counts(&mut self.done, &mut self.left, cast);
        self.on = self.on.union(cast).minus(without_scenes(&self.done, cast));
    }
}

/// Returns for each actor the number of the film's scenes that he works in.
fn scenes_of_each(film: &Film) -> [u8; MAX_COUNT]
    ensures { (actor : ℕ) → actor < length film.now.rates
        → slice_index result actor ≡ scenes_with film.now (all_scenes film.now) actor }
{
    film.keeps_limits();
    let mut counts = [0; MAX_COUNT];
    for actor in 0..film.rates().len() {
        counts[actor] = scenes_with(film, film.all(), actor as u32);
    }
    counts
}

/// Returns the number of the set's scenes that the actor works in.
fn scenes_with(film: &Film, q: Mask, actor: u32) -> u8
    requires lies { LiesIn film.now q.0 }
    requires known { actor < MAX_COUNT }
    ensures { result ≡ scenes_with film.now q.0 actor }
{
    let casts = film.casts();
    let mut count = 0;
    for scene in q.iter() {
        count += Mask(casts[scene as usize]).has(actor) as u8;
    }
    count
}

/// Moves one scene of each actor of the cast from the one count to the other.
fn move_counts(from: &mut [u8; MAX_COUNT], to: &mut [u8; MAX_COUNT], cast: Mask)
    requires known { LiesBelow MAX_COUNT cast.0 }
    requires some { (actor : ℕ) → has cast.0 actor ≡ true → 0 < slice_index from.old actor }
    requires room { (actor : ℕ) → has cast.0 actor ≡ true → slice_index to.old actor ≤ MAX_COUNT }
    ensures from { (actor : ℕ) → slice_index from.new actor + cond (has cast.0 actor) 1 0 ≡ slice_index from.old actor }
    ensures to { (actor : ℕ) → slice_index to.new actor ≡ slice_index to.old actor + cond (has cast.0 actor) 1 0 }
{
    for actor in cast.iter() {
        from[actor as usize] -= 1;
        to[actor as usize] += 1;
    }
}

/// Returns the actors of the cast whose count is 0.
fn without_scenes(counts: &[u8; MAX_COUNT], cast: Mask) -> Mask
    requires { LiesBelow MAX_COUNT cast.0 }
    ensures { (actor : ℕ) → has result.0 actor ≡ (has cast.0 actor && (slice_index counts.now actor == 0)) }
{
    let mut found = Mask(0);
    for actor in cast.iter() {
        if counts[actor as usize] == 0 {
            found = found.with(actor);
        }
    }
    found
}
