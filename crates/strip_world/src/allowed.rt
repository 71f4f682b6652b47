// The check whether an event is allowed.
ghost use Rattle.std.specs.Prelude.{◌≡◌, ◌≢◌, ◌↔◌, ℕ, ◌+◌, ◌<◌, ◌≤◌, true, length, map, slice_index_or, IsTrue, Some};
ghost use Rattle.std.specs.Option.{option_map};
ghost use Rattle.strip_mask.specs.Set.{has, without};
ghost use Rattle.strip_film.specs.Film.{LiesIn};
ghost use Rattle.strip_film.specs.Path.{IsPath};
ghost use Rattle.strip_film.specs.Shoot.{step_cost};
ghost use Rattle.strip_film.specs.Shown.{path_data};
ghost use Rattle.strip_bound.specs.Bounds.{bound};
ghost use Rattle.strip_rule.specs.Rule.{open_firsts};
ghost use Rattle.strip_lines.specs.Lines.{IsJustified, known};
ghost use Rattle.strip_lines.specs.Paths.{ComesAfter};
ghost use Rattle.strip_lines.specs.Parts.{lies_in, no_task};
ghost use Rattle.strip_world.specs.Shown.{probe_data};
ghost use Rattle.strip_hand.specs.Search.{GoesBy, depth_of, search_rules};
ghost use Rattle.strip_world.specs.World.{part_at};
ghost use Rattle.strip_hand.specs.Hand.{Knows, Lets, LetsThrough};
ghost use Rattle.strip_world.specs.Allowed.{IsAllowed, IsFitting, WorkerMayEnlist, WorkerMayRaise, actor_of};
ghost use Rattle.strip_world.specs.Sound.{IsSound};

use crate::event::Event;
use crate::paths::{is_complete, is_earlier, is_open};
use crate::state::Asked;
use crate::world::World;
use strip_bound::Bounds;
use strip_film::{Film, Known, Path, Probe, step};
use strip_mask::Mask;
use strip_rule::open_firsts;

impl World {
    /// Returns whether the event is allowed: its worker exists, and its effect is justified. A path is checked from its
    /// start. For a bound it goes over the lines for each open first of the set. It allocates no memory.
    pub fn allows<B: Bounds>(&self, bounds: &B, event: &Event) -> bool
        requires sound { IsSound self.now }
        requires search { GoesBy B.kind B.film self.now.search }
        ensures { IsTrue result ↔ IsAllowed self.now event.now }
    {
        self.has_worker(actor_of(event)) && self.is_fitting(bounds, event)
    }

    /// Returns whether worker `who` exists.
    fn has_worker(&self, who: u32) -> bool
        ensures { IsTrue result ↔ (who < length self.now.workers) }
    {
        (who as usize) < self.workers.len()
    }

    /// Returns whether the event of an existing worker is allowed.
    fn is_fitting<B: Bounds>(&self, bounds: &B, event: &Event) -> bool
        requires sound { IsSound self.now }
        requires search { GoesBy B.kind B.film self.now.search }
        requires worker { actor_of event.now < length self.now.workers }
        ensures { IsTrue result ↔ IsFitting self.now event.now }
    {
        match event {
            Event::Look { .. } | Event::Claim { .. } => true,
            Event::Offer { path, .. } => is_complete(&self.film, path),
            Event::Enlist { who, task, path } => self.may_enlist(bounds, *who, *task, path),
            Event::Raise { line, bound, .. } => self.may_raise(bounds, *line, *bound),
            Event::Probe { set, .. } => lies_in_film(&self.film, Mask(*set)),
            Event::Note { known, .. } => self.may_note(known),
        }
    }

    /// Returns whether the worker may enlist the path in the part.
    fn may_enlist<B: Bounds>(&self, bounds: &B, who: u32, part: u32, path: &Path) -> bool
        requires sound { IsSound self.now }
        requires search { GoesBy B.kind B.film self.now.search }
        requires worker { who < length self.now.workers }
        ensures { IsTrue result ↔ WorkerMayEnlist self.now who part (path_data path.now) }
    {
        let worker = &self.workers[who as usize];
        self.is_in_part_of(who, part, path)
            && is_open(&self.film, path)
            && self.comes_after(bounds, part, path)
            && !path.rest().is_empty()
            && self.is_below(bounds, path, worker.told)
            && (part == 0 || lets_through(worker.asked, path, worker.told))
    }

    /// Returns whether the worker claimed the part, and the path lies in it.
    fn is_in_part_of(&self, who: u32, part: u32, path: &Path) -> bool
        requires { IsSound self.now }
        ensures { IsTrue result ↔ ((part < length self.now.parts) × ((part_at self.now part).claimer ≡ Some who)
            × (lies_in (depth_of self.now.search) self.now.search.tasks part (path_data path.now) ≡ true)) }
    {
        match self.parts.get(part as usize) {
            Some(state) => {
                state.claimer == Some(who)
                    && lies_in(depth_of(&self.tasks), &self.tasks, part, path)
            }
            None => false,
        }
    }

    /// Returns whether the path comes after the part's last path, if there is one. It compares the scenes that both
    /// begin with, and two ranks.
    fn comes_after<B: Bounds>(&self, bounds: &B, part: u32, path: &Path) -> bool
        requires sound { IsSound self.now }
        requires search { GoesBy B.kind B.film self.now.search }
        requires part { part < length self.now.parts }
        requires path { IsPath self.now.search.film (path_data path.now) }
        ensures { IsTrue result ↔ ComesAfter (search_rules self.now.search) (part_at self.now part).last
            (path_data path.now) }
    {
        match &self.parts[part as usize].last {
            Some(last) => is_earlier(bounds, self.film.all(), last.scenes(), path.scenes()),
            None => true,
        }
    }

    /// Returns whether the path's pay plus the static bound of the rest is below a cost.
    fn is_below<B: Bounds>(&self, bounds: &B, path: &Path, cost: u64) -> bool
        requires search { GoesBy B.kind B.film self.now.search }
        requires path { IsPath self.now.search.film (path_data path.now) }
        ensures { IsTrue result ↔ ((path_data path.now).paid
            + bound self.now.search.kind self.now.search.film (path_data path.now).rest < cost) }
    {
        self.bound(bounds, path.rest()) < cost.saturating_sub(path.paid())
    }

    /// Returns whether the line may be raised to the bound.
    fn may_raise<B: Bounds>(&self, bounds: &B, line: u32, bound: u64) -> bool
        requires sound { IsSound self.now }
        requires search { GoesBy B.kind B.film self.now.search }
        ensures { IsTrue result ↔ WorkerMayRaise self.now line bound }
    {
        match self.lines.get(line as usize) {
            Some(line) => self.is_justified(bounds, Mask(line.set), bound),
            None => false,
        }
    }

    /// Returns whether the lines justify the bound of the set. Its static bound must reach it, or the step plus the
    /// bound known of the rest for each open first.
    fn is_justified<B: Bounds>(&self, bounds: &B, set: Mask, bound: u64) -> bool
        requires search { GoesBy B.kind B.film self.now.search }
        requires lies { LiesIn self.now.search.film set.0 }
        ensures { IsTrue result ↔ IsJustified (search_rules self.now.search) self.now.lines
            (record { set = set.0; bound = bound }) }
    {
        bound <= self.bound(bounds, set)
            || !set.is_empty() && self.each_first_reaches(bounds, set, bound)
    }

    /// Returns whether the step plus the bound known of the rest reaches `bound` for each open first. For each first it
    /// takes a step cost, a static bound and a pass over the lines.
    fn each_first_reaches<B: Bounds>(&self, bounds: &B, set: Mask, bound: u64) -> bool
        requires search { GoesBy B.kind B.film self.now.search }
        requires lies { LiesIn self.now.search.film set.0 }
        ensures { IsTrue result ↔ ((scene : ℕ) → has (open_firsts self.now.search.film set.0) scene ≡ true
            → bound ≤ step_cost self.now.search.film set.0 scene
            + known (search_rules self.now.search) self.now.lines (without set.0 scene)) }
    {
        self.film.keeps_limits();
        for scene in open_firsts(&self.film, set).iter() {
            let rest = self.known(bounds, set.without(scene));
            if bound.saturating_sub(step(&self.film, set, scene)) > rest {
                return false;
            }
        }
        true
    }

    /// Returns the bound known of the set: the greatest of its static bound and its lines' bounds, in units of money.
    /// Time is linear in the number of lines.
    pub fn known<B: Bounds>(&self, bounds: &B, set: Mask) -> u64
        requires search { GoesBy B.kind B.film self.now.search }
        requires lies { LiesIn self.now.search.film set.0 }
        ensures { result ≡ known (search_rules self.now.search) self.now.lines set.0 }
    {
        let mut greatest = self.bound(bounds, set);
        for line in &self.lines {
            if line.set == set.0 {
                greatest = greatest.max(line.bound);
            }
        }
        greatest
    }

    /// Returns the static bound of the set.
    pub(crate) fn bound<B: Bounds>(&self, bounds: &B, set: Mask) -> u64
        requires search { GoesBy B.kind B.film self.now.search }
        requires lies { LiesIn self.now.search.film set.0 }
        ensures { result ≡ bound self.now.search.kind self.now.search.film set.0 }
    {
        bounds.whole(set)
    }

    /// Returns whether the line may be inserted into the table: its bound is at most that of the recorded line with its
    /// number and set.
    fn may_note(&self, known: &Known) -> bool
        ensures { IsTrue result ↔ Knows self.now.lines known.now }
    {
        match self.lines.get(known.line as usize) {
            Some(line) => line.set == known.set && known.bound <= line.bound,
            None => false,
        }
    }
}

/// Returns the worker of an event.
fn actor_of(event: &Event) -> u32
    ensures { result ≡ actor_of event.now }
{
    match event {
        Event::Look { who }
        | Event::Offer { who, .. }
        | Event::Claim { who }
        | Event::Enlist { who, .. }
        | Event::Raise { who, .. }
        | Event::Probe { who, .. }
        | Event::Note { who, .. } => *who,
    }
}

/// Returns whether the set is a set of the film's scenes.
fn lies_in_film(film: &Film, set: Mask) -> bool
    ensures { IsTrue result ↔ LiesIn film.now set.0 }
{
    film.keeps_limits();
    set.lies_below(film.scenes() as u32)
}

/// Returns the number of scenes of a task.
fn depth_of(tasks: &[Path]) -> usize
    ensures { result ≡ length (slice_index_or (map path_data tasks.now) 0 no_task).scenes }
{
    tasks.first().map_or(0, |task| task.scenes().len())
}

/// Returns whether the path lies in the part: in part 0 if it is shorter than the tasks, in others if it begins with
/// the part's task.
fn lies_in(depth: usize, tasks: &[Path], part: u32, path: &Path) -> bool
    requires { part ≤ length tasks.now }
    ensures { result ≡ lies_in depth (map path_data tasks.now) part (path_data path.now) }
{
    if part == 0 {
        return path.scenes().len() < depth;
    }
    path.scenes().starts_with(tasks[part as usize - 1].scenes())
}

/// Returns whether the last probe asked for the set that the path leaves, and its answer does not rule the path out.
fn lets_through(asked: Option<Asked>, path: &Path, told: u64) -> bool
    ensures { IsTrue result ↔ LetsThrough (option_map probe_data asked) (path_data path.now) told }
{
    match asked {
        Some(asked) => path.rest() == Mask(asked.set) && lets(asked.answer, path, told),
        None => false,
    }
}

/// Returns whether the answer to a probe leaves the path below the cost `told`.
fn lets(answer: Probe, path: &Path, told: u64) -> bool
    ensures { IsTrue result ↔ Lets answer (path_data path.now) told }
{
    match answer {
        Probe::Hit(known) => known.bound < told.saturating_sub(path.paid()),
        Probe::Miss => true,
    }
}
