// Scenes and actors, drawn from a pseudo-random generator.
ghost use Rattle.std.specs.Prelude.{◌≡◌, ◌≤◌, ◌<◌, IfOk, map, string_bytes};
ghost use Rattle.std.specs.List.{range_with_len};
ghost use Rattle.strip_model.specs.Instance.{actor_data, scene_data};
ghost use Rattle.strip_commands.specs.Generated.{actor_at, cast_of, generated, name_at, scene_at};
ghost use Rattle.strip_commands.specs.Words.{behind};

use rand_core::utils::NextWord;
use rand_pcg::Pcg32;
use std::alloc::{AllocError, Global};
use strip_io::Memory;
use strip_mask::Mask;
use strip_model::{Actor, Instance, Scene};

/// The stream of the generator, fixed for every seed.
const STREAM: u64 = 54;

/// Makes the instance of this seed, with `scenes` scenes and `actors` actors. It fails only if memory runs out, and
/// takes time in proportion to scenes times actors.
pub fn generate(alloc: Global, number: u64, scenes: u32, actors: u32) -> Result<Instance, Memory>
    requires scenes { (1 ≤ scenes) × (scenes ≤ 200) }
    requires actors { actors ≤ 64 }
    ensures { IfOk result (λ inst. inst ≡ generated number scenes actors) }
{
    let mut words = Pcg32::new(number, STREAM);
    let drawn_actors = draw_actors(alloc, &mut words, actors)?;
    let drawn_scenes = draw_scenes(alloc, &mut words, scenes, actors)?;
    match Instance::of(drawn_scenes, drawn_actors) {
        Some(inst) => Ok(inst),
        None => unreachable!("what is drawn keeps the limits"),
    }
}

/// Draws the actors, with a word of the generator for each.
fn draw_actors(alloc: Global, words: &mut Pcg32, actors: u32) -> Result<Vec<Actor>, AllocError>
    requires { actors ≤ 64 }
    ensures behind { IfOk result (λ drawn. words.new ≡ behind words.old actors) }
    ensures drawn { IfOk result (λ drawn. map actor_data drawn.items
        ≡ map (actor_at words.old) (range_with_len 0 actors)) }
{
    let mut drawn = Vec::new(alloc);
    for actor in 0..actors {
        let name = name_at(alloc, "a", actor)?;
        let rate = 1 + u64::from(words.next_word()) % 100;
        drawn.push(Actor {
            name,
            rate,
            hold: rate,
        })?;
    }
    Ok(drawn)
}

/// Draws the scenes: a word of the generator for the days of each scene, and one for each actor.
fn draw_scenes(
    alloc: Global,
    words: &mut Pcg32,
    scenes: u32,
    actors: u32,
) -> Result<Vec<Scene>, AllocError>
    requires scenes { scenes ≤ 200 }
    requires actors { actors ≤ 64 }
    ensures { IfOk result (λ drawn. map scene_data drawn.items
        ≡ map (scene_at words.old actors) (range_with_len 0 scenes)) }
{
    let mut drawn = Vec::new(alloc);
    for scene in 0..scenes {
        let name = name_at(alloc, "s", scene)?;
        let days = 1 + u64::from(words.next_word()) % 5;
        let cast = draw_cast(words, actors);
        drawn.push(Scene { name, days, cast })?;
    }
    Ok(drawn)
}

/// Draws the set of the actors who work in a scene, with a word of the generator for each.
fn draw_cast(words: &mut Pcg32, actors: u32) -> u64
    requires { actors ≤ 64 }
    ensures behind { words.new ≡ behind words.old actors }
    ensures cast { result ≡ cast_of words.old actors }
{
    let mut cast = Mask(0);
    for actor in 0..actors {
        if words.next_word() % 3 == 0 {
            cast = cast.with(actor);
        }
    }
    cast.0
}

/// Returns a letter followed by the number of an actor or a scene, counted from 1.
fn name_at(alloc: Global, letter: &'static str, place: u32) -> Result<String, AllocError>
    requires { place < 200 }
    ensures { IfOk result (λ name. string_bytes name ≡ name_at letter.now place) }
{
    format!(in alloc; "{letter}{}", place + 1)
}
