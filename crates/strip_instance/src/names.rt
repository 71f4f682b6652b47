// Lookups of earlier names.
ghost use Rattle.std.specs.Prelude.{◌≡◌, ◌<◌, ◌≤◌, map, take, length};
ghost use Rattle.std.specs.List.{position};
ghost use Rattle.std.specs.Str.{bytes_eq};
ghost use Rattle.std.specs.String.{string_bytes};
ghost use Rattle.strip_model.specs.Instance.{scene_data};
ghost use Rattle.strip_text.specs.Rows.{field_of};
ghost use Rattle.strip_instance.specs.Parts.{actor_fields};
ghost use Rattle.strip_instance.specs.Befores.{number_of_scene};
ghost use Rattle.strip_instance.specs.Faults.{contains};
ghost use Rattle.strip_instance.specs.Shown.{names_of};

use strip_model::Scene;
use strip_text::Row;

/// Tells whether one of the scenes has this name.
pub(crate) fn has_scene(scenes: &[Scene], name: &[u8]) -> bool
    ensures { result ≡ contains (map (λ scene. scene.name) (map scene_data scenes.now)) name.now }
{
    for scene in scenes {
        if name == scene.name.as_bytes() {
            return true;
        }
    }
    false
}

/// Returns the number of the scene with this name.
pub(crate) fn scene_number(scenes: &[Scene], name: &[u8]) -> Option<u16>
    requires { length scenes.now ≤ 200 }
    ensures { result ≡ number_of_scene (names_of scenes.now) name.now }
{
    let place = place_of(scenes, name)?;
    Some(place as u16)
}

/// Returns the index of the scene with this name.
fn place_of(scenes: &[Scene], name: &[u8]) -> Option<usize>
    ensures { result ≡ position (λ scene. bytes_eq (string_bytes scene.name) name.now) scenes.now }
{
    scenes
        .iter()
        .position(|scene| scene.name.as_bytes() == name)
}

/// Tells whether an earlier actor has the name of the actor with this number.
pub(crate) fn is_earlier_actor(header: &Row, actor: usize) -> bool
    requires within { actor < length (actor_fields header.now) }
    requires few { actor < 64 }
    ensures { result ≡ contains (take actor (actor_fields header.now)) (field_of (actor_fields header.now) actor) }
{
    let name = header.field(actor + 2);
    for earlier in 0..actor {
        if name == header.field(earlier + 2) {
            return true;
        }
    }
    false
}
