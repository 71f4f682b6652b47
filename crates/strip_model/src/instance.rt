// Instances within the limits.
ghost use Rattle.std.specs.Prelude.{◌≡◌, ◌≢◌, ◌↔◌, ◌≤◌, ◌<◌, ℕ, List, [], length, map, All, IsTrue, IsSome, IfSome};
ghost use Rattle.std.specs.List.{AllPairs};
ghost use Rattle.strip_model.specs.Pairs.{FitPairs};
ghost use Rattle.strip_model.specs.Data.{IsInstance, IsScene, IsActor};
ghost use Rattle.strip_model.specs.Instance.{scene_data, actor_data, instance_data};

use crate::fitting::{MAX_SCENES, fit};
use crate::limits::MAX_ACTORS;
use crate::names::have_own_names;
use crate::pair::Pair;
use crate::scene::{Actor, Scene, is_actor, is_scene};
use std::marker::Model;

/// An instance: scenes and actors, each numbered by its place, and pairs of scenes (precedence constraints), within the
/// limits. Contracts see it as plain lists: names as their bytes, a cast as a set of actor numbers.
#[derive(Debug, Drop)]
pub struct Instance {
    scenes: Vec<Scene>,
    actors: Vec<Actor>,
    pairs: Vec<Pair>,
}

impl Model for Instance {
    ghost use Rattle.strip_model.specs.Data.{InstanceData, IsInstance};

    ghost Value = { InstanceData };

    ghost use Rattle.strip_model.specs.Instance.{instance_data};

    ghost view = { λ i. instance_data i.scenes.items i.actors.items i.pairs.items };

    ghost invariant = { λ i. IsInstance (instance_data i.scenes.items i.actors.items i.pairs.items) };
}

impl Instance {
    /// Makes the instance of these scenes and actors, without pairs, or none if they break a limit. It allocates no
    /// memory.
    pub fn of(scenes: Vec<Scene>, actors: Vec<Actor>) -> Option<Instance>
        ensures limits { IsSome result ↔ IsInstance (instance_data scenes.items actors.items []) }
        ensures same { IfSome result (λ inst. inst ≡ instance_data scenes.items actors.items []) }
    {
        if !keeps_limits(&scenes, &actors) {
            return None;
        }
        let pairs = Vec::new(*scenes.allocator());
        Some(Instance {
            scenes,
            actors,
            pairs,
        })
    }

    /// Returns whether the pairs are valid for the instance. Each pair must have two different scenes of it, no pair
    /// may occur twice, and the pairs may have no cycle. It allocates no memory, and takes a few instructions for each
    /// pair, and 200 iterations for one that earlier pairs don't imply.
    pub fn fits_pairs(&self, pairs: &[Pair]) -> bool
        ensures { IsTrue result ↔ FitPairs (length self.now.scenes) pairs.now }
    {
        fit(pairs, self.scenes.len())
    }

    /// Returns the instance with these pairs, which must be valid for it. It allocates no memory.
    pub fn with_pairs(self, pairs: Vec<Pair>) -> Instance
        requires { FitPairs (length self.scenes) pairs.items }
        ensures { result ≡ record self { pairs = pairs.items } }
    {
        Instance { pairs, ..self }
    }

    /// A law: every instance keeps the limits. The call does nothing when it runs. A caller that reads none of the
    /// instance's parts obtains the limits by it.
    pub fn keeps_limits(&self)
        ensures { IsInstance self.now }
    {
        let _ = &self.scenes;
    }

    /// Returns the scenes, by scene number.
    pub fn scenes(&self) -> &[Scene]
        ensures scenes { map scene_data result.now ≡ self.now.scenes }
        ensures count { length result.now ≡ length self.now.scenes }
        ensures limits { IsInstance self.now }
    {
        &self.scenes
    }

    /// Returns the pairs: of each, the first scene must be shot before the other.
    pub fn pairs(&self) -> &[Pair]
        ensures pairs { result.now ≡ self.now.pairs }
        ensures limits { IsInstance self.now }
    {
        &self.pairs
    }

    /// Returns the actors, by actor number.
    pub fn actors(&self) -> &[Actor]
        ensures actors { map actor_data result.now ≡ self.now.actors }
        ensures count { length result.now ≡ length self.now.actors }
        ensures limits { IsInstance self.now }
    {
        &self.actors
    }
}

fn keeps_limits(scenes: &[Scene], actors: &[Actor]) -> bool
    ensures { IsTrue result ↔ IsInstance (instance_data scenes.now actors.now []) }
{
    !scenes.is_empty()
        && scenes.len() <= MAX_SCENES
        && actors.len() <= MAX_ACTORS
        && are_scenes(scenes, actors.len())
        && are_actors(actors)
}

fn are_scenes(scenes: &[Scene], actors: usize) -> bool
    requires { actors ≤ 64 }
    ensures { IsTrue result ↔ (All (IsScene actors) (map scene_data scenes.now)
        × AllPairs (λ a b. a.name ≢ b.name) (map scene_data scenes.now)) }
{
    all_keep_scene_limits(scenes, actors) && have_own_names(scenes)
}

fn all_keep_scene_limits(scenes: &[Scene], actors: usize) -> bool
    requires { actors ≤ 64 }
    ensures { IsTrue result ↔ All (λ scene. IsScene actors (scene_data scene)) scenes.now }
{
    scenes.iter().all(|scene| is_scene(scene, actors))
}

fn are_actors(actors: &[Actor]) -> bool
    ensures { IsTrue result ↔ (All IsActor (map actor_data actors.now)
        × AllPairs (λ a b. a.name ≢ b.name) (map actor_data actors.now)) }
{
    all_keep_actor_limits(actors) && have_own_names(actors)
}

fn all_keep_actor_limits(actors: &[Actor]) -> bool
    ensures { IsTrue result ↔ All (λ actor. IsActor (actor_data actor)) actors.now }
{
    actors.iter().all(|actor| is_actor(actor))
}
