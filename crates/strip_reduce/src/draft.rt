// The state of a reduction, on which steps are taken.
ghost use Rattle.std.specs.Prelude.{◌≡◌, ◌<◌, None, Some, length, IfOk, MatchBool, OnOk};
ghost use Rattle.strip_reduce.specs.Draft.{IsDraft, draft_state};
ghost use Rattle.strip_reduce.specs.Reduction.{next};
ghost use Rattle.strip_reduce.specs.Steps.{actors_joined, dropped, scenes_joined};

use crate::edits::{close_up, join_members, renumber, sum_up, work_days};
use crate::search::{droppable, joinable_actors, joinable_scenes};
use std::alloc::AllocError;
use strip_model::Pair;

/// Progress of the search for scenes and for actors to join: none with a number below these can be joined with a later
/// one. So the search begins with these numbers. Nothing is known of the others.
#[derive(Clone, Copy)]
pub(crate) struct Compared {
    pub(crate) scenes: usize,
    pub(crate) actors: usize,
}

/// No scenes and no actors are compared yet.
pub(crate) const NOTHING: Compared = Compared {
    scenes: 0,
    actors: 0,
};

/// The state of a reduction: a film, the scenes joined in each of its scenes, and the cost set apart (equal in every
/// order).
#[derive(Drop)]
pub(crate) struct Draft {
    pub(crate) casts: Vec<u64>,
    pub(crate) days: Vec<u64>,
    pub(crate) rates: Vec<u64>,
    pub(crate) holds: Vec<u64>,
    pub(crate) pairs: Vec<Pair>,
    pub(crate) members: Vec<Vec<u16>>,
    pub(crate) apart: u64,
    pub(crate) compared: Compared,
}

impl Draft {
    /// Takes the first step that can be taken, and returns whether there was one.
    pub(crate) fn step(&mut self) -> Result<bool, AllocError>
        requires { IsDraft (draft_state self.old) self.old.compared }
        ensures went { IfOk result (λ went. MatchBool went
            (next (draft_state self.old) ≡ Some (draft_state self.new))
            ((next (draft_state self.old) ≡ None) × (draft_state self.new ≡ draft_state self.old))) }
        ensures stays { OnOk result (IsDraft (draft_state self.new) self.new.compared) }
    {
        if let Some(actor) = droppable(&self.casts, &self.holds) {
            self.drop_actor(actor);
            return Ok(true);
        }
        if let Some((a, b)) = joinable_scenes(&self.casts, &self.pairs, self.compared.scenes) {
            self.join_scenes(a, b)?;
            return Ok(true);
        }
        if let Some((a, b)) = joinable_actors(&self.casts, self.rates.len(), self.compared.actors) {
            self.join_actors(a, b);
            return Ok(true);
        }
        Ok(false)
    }

    /// Drops the actor, and sets apart the pay for his days of work.
    fn drop_actor(&mut self, actor: usize)
        requires draft { IsDraft (draft_state self.old) self.old.compared }
        requires known { actor < length self.old.rates.items }
        ensures step { draft_state self.new ≡ dropped (draft_state self.old) actor }
        ensures compared { self.new.compared ≡ record { scenes = 0; actors = 0 } }
    {
        let days = work_days(&self.casts, &self.days, actor as u32);
        self.apart += self.rates[actor] * days;
        close_up(&mut self.casts, actor as u32);
        self.rates.remove(actor);
        self.holds.remove(actor);
        self.compared = NOTHING;
    }

    /// Joins scene `b` to scene `a`.
    fn join_scenes(&mut self, a: usize, b: usize) -> Result<(), AllocError>
        requires draft { IsDraft (draft_state self.old) self.old.compared }
        requires places { a < b }
        requires known { b < length self.old.casts.items }
        ensures step { OnOk result (draft_state self.new ≡ scenes_joined (draft_state self.old) a b) }
        ensures compared { OnOk result (self.new.compared ≡ record { scenes = a; actors = 0 }) }
    {
        self.casts.remove(b);
        sum_up(&mut self.days, a, b);
        renumber(&mut self.pairs, b as u16);
        join_members(&mut self.members, a, b)?;
        self.compared = Compared {
            scenes: a,
            actors: 0,
        };
        Ok(())
    }

    /// Joins actor `b` to actor `a`, who gets the sums of their rates.
    fn join_actors(&mut self, a: usize, b: usize)
        requires draft { IsDraft (draft_state self.old) self.old.compared }
        requires places { a < b }
        requires known { b < length self.old.rates.items }
        ensures step { draft_state self.new ≡ actors_joined (draft_state self.old) a b }
        ensures compared { self.new.compared ≡ record { scenes = length self.old.casts.items; actors = a } }
    {
        close_up(&mut self.casts, b as u32);
        sum_up(&mut self.rates, a, b);
        sum_up(&mut self.holds, a, b);
        // Actors are joined only if no two scenes can be joined, and joining actors makes no two casts equal.
        self.compared = Compared {
            scenes: self.casts.len(),
            actors: a,
        };
    }
}
