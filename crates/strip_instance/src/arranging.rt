// The writer of instance texts with another order of scenes.
ghost use Rattle.std.specs.Prelude.{◌≡◌, ◌++◌, ◌<◌, ◌≤◌, length, map, All, Ok, IfOk, OnOk};
ghost use Rattle.strip_model.specs.Order.{IsOrder};
ghost use Rattle.strip_model.specs.Instance.{scene_data};
ghost use Rattle.strip_text.specs.Rows.{csv_text};
ghost use Rattle.strip_instance.specs.Text.{HasReadableNames, says};
ghost use Rattle.strip_instance.specs.Arranged.{arranged, scene_in};
ghost use Rattle.strip_instance.specs.Canonical.{canonical_text, scene_fields};

use crate::writing::{write_heads, write_pairs, write_scene};
use std::alloc::Global;
use strip_io::Memory;
use strip_model::{Instance, Scene};
use strip_text::Text;

/// Returns the canonical text of the instance with its scenes in this order. It reads back as that instance, if the
/// names can be written in a text. It fails only if memory runs out, and takes time and memory in proportion to the
/// size of the text.
pub fn write_arranged(alloc: Global, inst: &Instance, order: &[u16]) -> Result<Vec<u8>, Memory>
    requires { IsOrder (length inst.now.scenes) order.now }
    ensures canonical { IfOk result (λ text. text.items ≡ canonical_text (arranged inst.now order.now)) }
    ensures reads_back { IfOk result (λ text. HasReadableNames inst.now
        → says text.items ≡ Ok (arranged inst.now order.now)) }
{
    let scenes = inst.scenes();
    let actors = inst.actors();
    let mut text = Text::new(alloc);
    write_heads(alloc, &mut text, actors)?;
    write_in_order(alloc, &mut text, scenes, order, actors.len())?;
    write_pairs(&mut text, scenes, inst.pairs())?;
    text.into_bytes()
}

/// Writes the rows of the scenes, in this order.
fn write_in_order(
    alloc: Global,
    text: &mut Text,
    scenes: &[Scene],
    order: &[u16],
    actors: usize,
) -> Result<(), Memory>
    requires few { actors ≤ 64 }
    requires known { All (λ scene. scene < length scenes.now) order.now }
    ensures { OnOk result (text.new ≡ text.old
        ++ csv_text (map (scene_fields actors) (map (scene_in (map scene_data scenes.now)) order.now))) }
{
    for scene in order {
        write_scene(alloc, text, &scenes[*scene as usize], actors)?;
    }
    Ok(())
}
