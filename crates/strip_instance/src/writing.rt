// The writer of instance texts.
ghost use Rattle.std.specs.Prelude.{◌≡◌, ◌++◌, ◌<◌, ◌≤◌, length, map, All, Ok, IfOk, OnOk};
ghost use Rattle.std.specs.Fmt.{decimal};
ghost use Rattle.std.specs.String.{string_bytes};
ghost use Rattle.strip_model.specs.Pairs.{IsKnownPair};
ghost use Rattle.strip_model.specs.Instance.{actor_data, scene_data};
ghost use Rattle.strip_text.specs.Rows.{csv_row, csv_text};
ghost use Rattle.strip_instance.specs.Shown.{names_of as scene_names, rate_of, rate_word};
ghost use Rattle.strip_instance.specs.Text.{HasReadableNames, says};
ghost use Rattle.strip_instance.specs.Canonical.{canonical_text, has_own_holds, head_rows, header_fields, mark_of, pair_fields, pay_fields, scene_fields};

use crate::RateKind;
use std::alloc::Global;
use strip_io::Memory;
use strip_mask::Mask;
use strip_model::{Actor, Instance, Pair, Scene};
use strip_text::Text;

/// Returns the canonical text of the instance. It reads back as the instance, if the names can be written in a text. It
/// fails only if memory runs out, and takes time and memory in proportion to the size of the text.
pub fn write_instance(alloc: Global, inst: &Instance) -> Result<Vec<u8>, Memory>
    ensures canonical { IfOk result (λ text. text.items ≡ canonical_text inst.now) }
    ensures reads_back { IfOk result (λ text. HasReadableNames inst.now → says text.items ≡ Ok inst.now) }
{
    let scenes = inst.scenes();
    let actors = inst.actors();
    let mut text = Text::new(alloc);
    write_heads(alloc, &mut text, actors)?;
    write_scenes(alloc, &mut text, scenes, actors.len())?;
    write_pairs(&mut text, scenes, inst.pairs())?;
    text.into_bytes()
}

/// Writes the rows before those of the scenes.
pub(crate) fn write_heads(alloc: Global, text: &mut Text, actors: &[Actor]) -> Result<(), Memory>
    ensures { OnOk result (text.new ≡ text.old ++ csv_text (head_rows (map actor_data actors.now))) }
{
    write_header(alloc, text, actors)?;
    write_rates(alloc, text, RateKind::Work, actors)?;
    if has_own_holds(actors) {
        return write_rates(alloc, text, RateKind::Wait, actors);
    }
    Ok(())
}

/// Tells whether some actor's hold rate differs from his rate.
fn has_own_holds(actors: &[Actor]) -> bool
    ensures { result ≡ has_own_holds (map actor_data actors.now) }
{
    actors.iter().any(|actor| actor.hold != actor.rate)
}

fn write_header(alloc: Global, text: &mut Text, actors: &[Actor]) -> Result<(), Memory>
    ensures { OnOk result (text.new ≡ text.old ++ csv_row (header_fields (map actor_data actors.now))) }
{
    let mut fields: Vec<&[u8]> = Vec::new(alloc);
    fields.push(b"scene")?;
    fields.push(b"days")?;
    for actor in actors {
        fields.push(actor.name.as_bytes())?;
    }
    text.push(&fields)
}

fn write_rates(
    alloc: Global,
    text: &mut Text,
    kind: RateKind,
    actors: &[Actor],
) -> Result<(), Memory>
    ensures { OnOk result (text.new
        ≡ text.old ++ csv_row (pay_fields (rate_word kind) (rate_of kind) (map actor_data actors.now))) }
{
    let numbers = rate_numbers(alloc, kind, actors)?;
    let mut fields: Vec<&[u8]> = Vec::new(alloc);
    fields.push(kind.word())?;
    fields.push(b"")?;
    for number in &numbers {
        fields.push(number.as_bytes())?;
    }
    text.push(&fields)
}

/// Returns the actors' rates in decimal digits.
fn rate_numbers(alloc: Global, kind: RateKind, actors: &[Actor]) -> Result<Vec<String>, Memory>
    ensures { IfOk result (λ numbers. map (λ number. string_bytes number) numbers.items
        ≡ map (λ actor. decimal (rate_of kind actor)) (map actor_data actors.now)) }
{
    let mut numbers = Vec::new(alloc);
    for actor in actors {
        numbers.push(kind.of(actor).to_string(alloc)?)?;
    }
    Ok(numbers)
}

fn write_scenes(
    alloc: Global,
    text: &mut Text,
    scenes: &[Scene],
    actors: usize,
) -> Result<(), Memory>
    requires { actors ≤ 64 }
    ensures { OnOk result (text.new ≡ text.old ++ csv_text (map (scene_fields actors) (map scene_data scenes.now))) }
{
    for scene in scenes {
        write_scene(alloc, text, scene, actors)?;
    }
    Ok(())
}

pub(crate) fn write_scene(
    alloc: Global,
    text: &mut Text,
    scene: &Scene,
    actors: usize,
) -> Result<(), Memory>
    requires { actors ≤ 64 }
    ensures { OnOk result (text.new ≡ text.old ++ csv_row (scene_fields actors (scene_data scene.now))) }
{
    let days = scene.days.to_string(alloc)?;
    let mut fields: Vec<&[u8]> = Vec::new(alloc);
    fields.push(scene.name.as_bytes())?;
    fields.push(days.as_bytes())?;
    for actor in 0..actors {
        fields.push(mark(scene.cast, actor).as_bytes())?;
    }
    text.push(&fields)
}

/// Writes the rows of pairs of these scenes.
pub(crate) fn write_pairs(text: &mut Text, scenes: &[Scene], pairs: &[Pair]) -> Result<(), Memory>
    requires { All (IsKnownPair (length scenes.now)) pairs.now }
    ensures { OnOk result (text.new ≡ text.old ++ csv_text (map (pair_fields (scene_names scenes.now)) pairs.now)) }
{
    for pair in pairs {
        write_pair(text, scenes, pair)?;
    }
    Ok(())
}

fn write_pair(text: &mut Text, scenes: &[Scene], pair: &Pair) -> Result<(), Memory>
    requires { IsKnownPair (length scenes.now) pair.now }
    ensures { OnOk result (text.new ≡ text.old ++ csv_row (pair_fields (scene_names scenes.now) pair.now)) }
{
    let first = scenes[pair.first as usize].name.as_bytes();
    let then = scenes[pair.then as usize].name.as_bytes();
    text.push(&[b"before", first, then])
}

fn mark(cast: u64, actor: usize) -> &'static str
    requires { actor < 64 }
    ensures { result.now ≡ mark_of cast actor }
{
    if Mask(cast).has(actor as u32) {
        "x"
    } else {
        "."
    }
}
