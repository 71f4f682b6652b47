// The reader of instance texts.
ghost use Rattle.std.specs.Prelude.{◌≡◌, ◌≢◌, ◌≤◌, ◌∷◌, length, map, Ok, Err, IfOk, IfErr};
ghost use Rattle.strip_model.specs.Data.{IsInstance};
ghost use Rattle.strip_model.specs.Instance.{instance_data, scene_data};
ghost use Rattle.strip_instance.specs.declared.fault.InstanceFault.TheVariants.{Memory as OutOfMemory};
ghost use Rattle.strip_instance.specs.Fault.{fault_data};
ghost use Rattle.strip_instance.specs.Befores.{pairs_of};
ghost use Rattle.strip_instance.specs.Parts.{actor_fields, befores_part, parts_of, scenes_part};
ghost use Rattle.strip_instance.specs.Checks.{Makes};
ghost use Rattle.strip_instance.specs.Faults.{all_checks, body_parts_checks, scene_names, scene_rows};
ghost use Rattle.strip_instance.specs.Shown.{rows_from};
ghost use Rattle.strip_instance.specs.Text.{instance_of, says, scene_of};

use crate::befores::read_befores;
use crate::fault::InstanceFault;
use crate::header::read_names;
use crate::rates::{Paid, read_actors};
use crate::row::next_row;
use crate::scenes::{Scenes, read_scenes};
use std::alloc::Global;
use strip_model::{Actor, Instance, Pair, Scene};
use strip_text::{Row, Rows};

/// Reads the instance from its text, or finds the text's first fault. It takes time in proportion to the size of the
/// text. A pair's row takes a search through the scenes' names, and 200 turns if earlier pairs don't imply it. Besides
/// the instance it takes memory for the header and one more row at a time.
pub fn read_instance(alloc: Global, text: &[u8]) -> Result<Instance, InstanceFault>
    ensures read { IfOk result (λ inst. says text.now ≡ Ok inst) }
    ensures faults { IfErr result (λ fault. fault ≢ OutOfMemory → says text.now ≡ Err (fault_data fault)) }
{
    let mut rows = Rows::new(alloc, text);
    read_rows(alloc, &mut rows)
}

/// Reads the instance from all rows of a text.
fn read_rows(alloc: Global, rows: &mut Rows<'_>) -> Result<Instance, InstanceFault>
    requires { rows.old.number ≡ 0 }
    ensures makes { Makes (all_checks rows.old.left) result }
    ensures instance { IfOk result (λ inst. inst ≡ instance_of (parts_of rows.old.left)) }
{
    let mut header = Row::new(alloc);
    if !next_row(rows, &mut header)? {
        return Err(InstanceFault::Empty);
    }
    read_behind(alloc, &header, rows)
}

/// Reads the instance from this header and all rows after it.
fn read_behind(alloc: Global, header: &Row, rows: &mut Rows<'_>) -> Result<Instance, InstanceFault>
    requires { rows.old.number ≡ 1 }
    ensures makes { Makes (all_checks (header.now ∷ rows.old.left)) result }
    ensures instance { IfOk result (λ inst. inst ≡ instance_of (parts_of (header.now ∷ rows.old.left))) }
{
    let names = read_names(alloc, header)?;
    let mut row = Row::new(alloc);
    let Paid { actors, there } = read_actors(alloc, header, &names, rows, &mut row)?;
    let Filmed { scenes, pairs } = read_filmed(alloc, header, rows, &mut row, there)?;
    Ok(made(scenes, actors, pairs))
}

/// Makes an instance from scenes, actors and pairs that keep the limits.
fn made(scenes: Vec<Scene>, actors: Vec<Actor>, pairs: Vec<Pair>) -> Instance
    requires { IsInstance (instance_data scenes.items actors.items pairs.items) }
    ensures { result ≡ instance_data scenes.items actors.items pairs.items }
{
    match Instance::of(scenes, actors) {
        Some(inst) => inst.with_pairs(pairs),
        None => unreachable!("rows without a fault keep the limits"),
    }
}

/// The content of the rows after the rates: at least one scene, and the pairs.
#[derive(Drop)]
struct Filmed {
    scenes: Vec<Scene>,
    pairs: Vec<Pair>,
}

/// Reads the scenes and their pairs. If `there` holds, `row` has the first row after the rates; the other rows follow.
fn read_filmed(
    alloc: Global,
    header: &Row,
    rows: &mut Rows<'_>,
    row: &mut Row,
    there: bool,
) -> Result<Filmed, InstanceFault>
    requires { length (actor_fields header.now) ≤ 64 }
    ensures makes { Makes (body_parts_checks header.now rows.old.number
        (scenes_part (rows_from there row.old rows.old.left))
        (befores_part (rows_from there row.old rows.old.left))) result }
    ensures scenes { IfOk result (λ filmed. map scene_data filmed.scenes.items
        ≡ map scene_of (scene_rows (scenes_part (rows_from there row.old rows.old.left)))) }
    ensures pairs { IfOk result (λ filmed. filmed.pairs.items
        ≡ pairs_of (scene_names (scenes_part (rows_from there row.old rows.old.left))) (befores_part (rows_from there row.old rows.old.left))) }
{
    let Scenes { scenes, there } = read_scenes(alloc, header, rows, row, there)?;
    let pairs = read_befores(alloc, &scenes, rows, row, there)?;
    if scenes.is_empty() {
        return Err(InstanceFault::NoScene);
    }
    Ok(Filmed { scenes, pairs })
}
