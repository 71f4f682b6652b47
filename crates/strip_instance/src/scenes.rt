// The scenes: their names, days and marks.
ghost use Rattle.std.specs.Prelude.{◌≡◌, ◌+◌, ◌<◌, ◌≤◌, ◌++◌, ◌∷◌, [], true, List, length, map, IfOk, OnOk};
ghost use Rattle.strip_model.specs.Instance.{scene_data};
ghost use Rattle.strip_text.specs.Rows.{Row as RowData, field_of};
ghost use Rattle.strip_instance.specs.Checks.{Makes};
ghost use Rattle.strip_instance.specs.Parts.{actor_fields, befores_part, scenes_part};
ghost use Rattle.strip_instance.specs.Field.{is_work_mark};
ghost use Rattle.strip_instance.specs.Faults.{mark_check, mark_checks, row_checks, scene_checks, scene_rows, scenes_checks};
ghost use Rattle.strip_instance.specs.Shown.{rows_from};
ghost use Rattle.strip_instance.specs.Text.{cast_of_marks, scene_of};

use crate::fault::InstanceFault;
use crate::field::{is_scene_name, mark_meaning, text_of};
use crate::names::has_scene;
use crate::row::{actor_count, is_before_row, next_row};
use std::alloc::Global;
use strip_mask::Mask;
use strip_model::{MAX_DAYS, MAX_SCENES, Scene};
use strip_text::{Row, Rows, number_of};

/// The scenes, and whether the row after them was read.
#[derive(Drop)]
pub(crate) struct Scenes {
    /// The scenes, in the order of their rows.
    pub scenes: Vec<Scene>,
    /// Whether there is a row after those of the scenes, which was read.
    pub there: bool,
}

/// Reads the scenes. If `there` holds, `row` has the first row after the rates; the other rows follow. If there is a
/// row of a pair, `row` then has the first one.
pub(crate) fn read_scenes(
    alloc: Global,
    header: &Row,
    rows: &mut Rows<'_>,
    row: &mut Row,
    there: bool,
) -> Result<Scenes, InstanceFault>
    requires { length (actor_fields header.now) ≤ 64 }
    ensures makes { Makes (scenes_checks header.now rows.old.number
        (scenes_part (rows_from there row.old rows.old.left))) result }
    ensures scenes { IfOk result (λ found. map scene_data found.scenes.items
        ≡ map scene_of (scene_rows (scenes_part (rows_from there row.old rows.old.left)))) }
    ensures left { IfOk result (λ found. rows_from found.there row.new rows.new.left
        ≡ befores_part (rows_from there row.old rows.old.left)) }
    ensures counted { IfOk result (λ found. (found.there ≡ true)
        → rows.new.number ≡ rows.old.number + length (scenes_part (rows_from there row.old rows.old.left))) }
{
    let mut scenes = Vec::new(alloc);
    let mut there = there;
    while there && !is_before_row(row) {
        take_row(alloc, header, &mut scenes, row, rows.number())?;
        there = next_row(rows, row)?;
    }
    Ok(Scenes { scenes, there })
}

/// Appends the scene of the row with this number, unless the row is skipped.
fn take_row(
    alloc: Global,
    header: &Row,
    scenes: &mut Vec<Scene>,
    row: &Row,
    number: u64,
) -> Result<(), InstanceFault>
    requires { length (actor_fields header.now) ≤ 64 }
    ensures makes { (earlier : List RowData) → map scene_data scenes.old.items ≡ map scene_of (scene_rows earlier)
        → Makes (row_checks header.now earlier number row.now) result }
    ensures taken { OnOk result (map scene_data scenes.new.items
        ≡ map scene_data scenes.old.items ++ map scene_of (scene_rows (row.now ∷ []))) }
{
    if row.is_empty() {
        return Ok(());
    }
    let scene = read_scene(alloc, header, scenes, row, number)?;
    scenes.push(scene)?;
    Ok(())
}

/// Reads the scene of the row with this number; `scenes` has the earlier ones.
fn read_scene(
    alloc: Global,
    header: &Row,
    scenes: &[Scene],
    row: &Row,
    number: u64,
) -> Result<Scene, InstanceFault>
    requires { length (actor_fields header.now) ≤ 64 }
    ensures makes { (earlier : List RowData) → map scene_data scenes.now ≡ map scene_of earlier
        → Makes (scene_checks header.now earlier number row.now) result }
    ensures scene { IfOk result (λ scene. scene_data scene ≡ scene_of row.now) }
{
    if scenes.len() >= MAX_SCENES {
        return Err(InstanceFault::TooManyScenes);
    }
    if row.len() != header.len() {
        return Err(InstanceFault::Width { row: number });
    }
    let name = text_of(row.field(0), number, 1)?;
    if !is_scene_name(name.as_bytes()) {
        return Err(InstanceFault::BadName {
            row: number,
            col: 1,
        });
    }
    if has_scene(scenes, name.as_bytes()) {
        return Err(InstanceFault::DuplicateScene { row: number });
    }
    let Some(days) = number_of(row.field(1), 1, MAX_DAYS) else {
        return Err(InstanceFault::BadDays { row: number });
    };
    let cast = read_cast(row, number)?;
    let name = String::from_str(alloc, name)?;
    Ok(Scene { name, days, cast })
}

/// Reads the set of the actors whose marks mean that they work.
fn read_cast(row: &Row, number: u64) -> Result<u64, InstanceFault>
    requires { length (actor_fields row.now) ≤ 64 }
    ensures makes { Makes (mark_checks number row.now) result }
    ensures cast { IfOk result (λ cast. cast ≡ cast_of_marks (actor_fields row.now)) }
{
    let mut cast = Mask(0);
    for actor in 0..actor_count(row) {
        if read_mark(row, number, actor)? {
            cast = cast.with(actor as u32);
        }
    }
    Ok(cast.0)
}

/// Tells whether the mark of the actor with this number means that he works.
fn read_mark(row: &Row, number: u64, actor: usize) -> Result<bool, InstanceFault>
    requires { actor < 64 }
    ensures makes { Makes (mark_check number row.now actor) result }
    ensures mark { IfOk result (λ working. working ≡ is_work_mark (field_of (actor_fields row.now) actor)) }
{
    let col = actor as u64 + 3;
    mark_meaning(row.field(actor + 2)).ok_or(InstanceFault::BadMark { row: number, col })
}
