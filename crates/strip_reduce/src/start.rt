// The state with which a reduction begins.
ghost use Rattle.std.specs.Prelude.{◌≡◌, ◌≤◌, [], ◌∷◌, map, IfOk};
ghost use Rattle.strip_mask.specs.Set.{numbers_below};
ghost use Rattle.strip_model.specs.FilmOf.{film_of};
ghost use Rattle.strip_reduce.specs.Draft.{IsDraft, draft_state};
ghost use Rattle.strip_reduce.specs.State.{start};

use crate::draft::{Draft, NOTHING};
use std::alloc::{AllocError, Global};
use strip_model::{Actor, Instance, Scene};

/// Makes the draft of the instance's film, with a class for each scene.
pub(crate) fn first_draft(alloc: Global, inst: &Instance) -> Result<Draft, AllocError>
    ensures state { IfOk result (λ draft. draft_state draft ≡ start (film_of inst.now)) }
    ensures draft { IfOk result (λ draft. IsDraft (draft_state draft) draft.compared) }
{
    let scenes = inst.scenes();
    let actors = inst.actors();
    Ok(Draft {
        casts: casts_of(alloc, scenes)?,
        days: days_of(alloc, scenes)?,
        rates: rates_of(alloc, actors)?,
        holds: holds_of(alloc, actors)?,
        pairs: Vec::from_slice(alloc, inst.pairs())?,
        members: single_scenes(alloc, scenes.len())?,
        apart: 0,
        compared: NOTHING,
    })
}

fn casts_of(alloc: Global, scenes: &[Scene]) -> Result<Vec<u64>, AllocError>
    ensures { IfOk result (λ casts. casts.items ≡ map (λ scene. scene.cast) scenes.now) }
{
    scenes.iter().map(|scene| scene.cast).collect(alloc)
}

fn days_of(alloc: Global, scenes: &[Scene]) -> Result<Vec<u64>, AllocError>
    ensures { IfOk result (λ days. days.items ≡ map (λ scene. scene.days) scenes.now) }
{
    scenes.iter().map(|scene| scene.days).collect(alloc)
}

fn rates_of(alloc: Global, actors: &[Actor]) -> Result<Vec<u64>, AllocError>
    ensures { IfOk result (λ rates. rates.items ≡ map (λ actor. actor.rate) actors.now) }
{
    actors.iter().map(|actor| actor.rate).collect(alloc)
}

fn holds_of(alloc: Global, actors: &[Actor]) -> Result<Vec<u64>, AllocError>
    ensures { IfOk result (λ holds. holds.items ≡ map (λ actor. actor.hold) actors.now) }
{
    actors.iter().map(|actor| actor.hold).collect(alloc)
}

/// Returns for each scene below `count` the list of this scene alone.
fn single_scenes(alloc: Global, count: usize) -> Result<Vec<Vec<u16>>, AllocError>
    requires { count ≤ 200 }
    ensures { IfOk result (λ members. map (λ list. list.items) members.items
        ≡ map (λ scene. scene ∷ []) (numbers_below count)) }
{
    let mut members = Vec::new(alloc);
    for scene in 0..count {
        let mut list = Vec::new(alloc);
        list.push(scene as u16)?;
        members.push(list)?;
    }
    Ok(members)
}
