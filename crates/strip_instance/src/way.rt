// Shortest ways along pairs.
ghost use Rattle.std.specs.Prelude.{◌≡◌, ◌≢◌, ℕ, ◌<◌, ◌≤◌, All, IsTrue, IfOk, MatchOption, ◌⊎◌, ◌↔◌, ◌+◌, false, slice_index};
ghost use Rattle.strip_instance.specs.Steps.{AreSteps, CameCloser, IsLeastNearer, Nears};
ghost use Rattle.strip_instance.specs.Ways.{IsShortestWay};
ghost use Rattle.strip_model.specs.Pairs.{IsKnownPair, Leads};

use std::alloc::Global;
use strip_io::Memory;
use strip_model::{MAX_SCENES, Pair};

/// A number of steps that no shortest way has.
const FAR: u16 = MAX_SCENES as u16;

/// Returns the shortest list of scenes from `from` to `to`, with a pair from each scene to the next. Of several such
/// lists it is the least by scene numbers. It takes time in proportion to pairs times scenes, and fails only if memory
/// runs out.
pub(crate) fn shortest_way(
    alloc: Global,
    pairs: &[Pair],
    from: u16,
    to: u16,
) -> Result<Vec<u16>, Memory>
    requires known { All (IsKnownPair 200) pairs.now }
    requires apart { from ≢ to }
    requires leads { Leads pairs.now from to }
    ensures { IfOk result (λ way. IsShortestWay pairs.now from to way.items) }
{
    let steps = steps_to(pairs, to);
    let mut way = Vec::new(alloc);
    let mut scene = from;
    way.push(scene)?;
    while let Some(next) = next_scene(pairs, &steps, scene) {
        way.push(next)?;
        scene = next;
    }
    Ok(way)
}

/// Returns for each scene the least number of steps along pairs to the last scene, or `FAR` if no way leads there.
fn steps_to(pairs: &[Pair], to: u16) -> [u16; MAX_SCENES]
    requires known { All (IsKnownPair 200) pairs.now }
    requires to { to < 200 }
    ensures { AreSteps pairs.now to result }
{
    let mut steps = [FAR; MAX_SCENES];
    steps[to as usize] = 0;
    for _pass in 0..MAX_SCENES {
        if !come_closer(pairs, &mut steps) {
            return steps;
        }
    }
    steps
}

/// Lowers the steps of each pair's first scene to one more than those of its second, and returns whether any were
/// lowered.
fn come_closer(pairs: &[Pair], steps: &mut [u16; MAX_SCENES]) -> bool
    requires known { All (IsKnownPair 200) pairs.now }
    requires small { All (λ count. count ≤ 200) steps.old }
    ensures closer { CameCloser pairs.now steps.old steps.new }
    ensures settled { result ≡ false → steps.new ≡ steps.old }
{
    let mut closer = false;
    for pair in pairs {
        let count = steps[pair.then as usize] + 1;
        if count < steps[pair.first as usize] {
            steps[pair.first as usize] = count;
            closer = true;
        }
    }
    closer
}

/// Returns the least scene that follows this scene in a pair and is a step nearer, or none if there is none.
fn next_scene(pairs: &[Pair], steps: &[u16; MAX_SCENES], scene: u16) -> Option<u16>
    requires known { All (IsKnownPair 200) pairs.now }
    requires scene { scene < 200 }
    requires small { All (λ count. count ≤ 200) steps.now }
    ensures { MatchOption result ((other : ℕ) → ¬ Nears pairs.now steps.now scene other)
        (IsLeastNearer pairs.now steps.now scene) }
{
    let mut next = None;
    for pair in pairs {
        if nears(pair, steps, scene) {
            next = Some(lesser(pair.then, next));
        }
    }
    next
}

/// Tells whether the pair leads from the scene to a scene that is a step nearer.
fn nears(pair: &Pair, steps: &[u16; MAX_SCENES], scene: u16) -> bool
    requires pair { IsKnownPair 200 pair.now }
    requires scene { scene < 200 }
    requires small { All (λ count. count ≤ 200) steps.now }
    ensures { IsTrue result ↔ ((pair.now.first ≡ scene)
        × (slice_index steps.now pair.now.then + 1 ≡ slice_index steps.now scene)) }
{
    pair.first == scene && steps[pair.then as usize] + 1 == steps[scene as usize]
}

/// Returns the lesser of a scene and the least one so far.
fn lesser(scene: u16, other: Option<u16>) -> u16
    ensures least { result ≤ scene }
    ensures among { MatchOption other (result ≡ scene) (λ least. (result ≤ least)
        × ((result ≡ scene) ⊎ (result ≡ least))) }
{
    match other {
        Some(least) => scene.min(least),
        None => scene,
    }
}
