// Scenes and actors, and the limits on each.
ghost use Rattle.std.specs.Prelude.{◌≡◌, ◌↔◌, ◌≤◌, List, ℕ, IsTrue};
ghost use Rattle.std.specs.String.{string_bytes};
ghost use Rattle.strip_model.specs.Data.{IsName, IsScene, IsActor};
ghost use Rattle.strip_model.specs.Instance.{scene_data, actor_data};

use crate::limits::{MAX_DAYS, MAX_NAME, MAX_RATE};
use crate::names::HasName;
use strip_mask::Mask;

/// A scene of the film.
#[derive(Debug, Drop)]
pub struct Scene {
    pub name: String,
    /// Number of days that the scene takes.
    pub days: u64,
    /// The cast: bit `i` stands for actor number `i`.
    pub cast: u64,
}

/// An actor of the film.
#[derive(Debug, Drop)]
pub struct Actor {
    pub name: String,
    /// The pay for a day of work, in units of money.
    pub rate: u64,
    /// The pay for a day of waiting between the first and the last day of work, in units of money.
    pub hold: u64,
}

impl HasName for Scene {
    ghost name = { λ scene. string_bytes scene.name };

    fn name(&self) -> &str {
        self.name.as_str()
    }
}

impl HasName for Actor {
    ghost name = { λ actor. string_bytes actor.name };

    fn name(&self) -> &str {
        self.name.as_str()
    }
}

fn is_name(name: &str) -> bool
    ensures { IsTrue result ↔ IsName name.now }
{
    !name.is_empty() && name.len() <= MAX_NAME
}

/// Returns whether the scene keeps the limits, if there are `actors` actors.
pub(crate) fn is_scene(scene: &Scene, actors: usize) -> bool
    requires { actors ≤ 64 }
    ensures { IsTrue result ↔ IsScene actors (scene_data scene.now) }
{
    is_name(scene.name.as_str())
        && scene.days >= 1
        && scene.days <= MAX_DAYS
        && Mask(scene.cast).lies_below(actors as u32)
}

/// Returns whether the actor keeps the limits.
pub(crate) fn is_actor(actor: &Actor) -> bool
    ensures { IsTrue result ↔ IsActor (actor_data actor.now) }
{
    is_name(actor.name.as_str()) && actor.rate <= MAX_RATE && actor.hold <= MAX_RATE
}
