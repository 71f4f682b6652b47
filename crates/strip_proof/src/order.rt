// The order of a plan text.
ghost use Rattle.std.specs.Prelude.{◌≡◌, drop, map, IfOk, OnOk};
ghost use Rattle.std.specs.List.{list_all};
ghost use Rattle.strip_text.specs.Checks.{checks_of_one};
ghost use Rattle.strip_proof.specs.declared.fault.PlanFault.TheVariants.{UnknownScene};
ghost use Rattle.strip_proof.specs.Field.{is_scene, scene_of};
ghost use Rattle.strip_text.specs.Rows.{row_of};
ghost use Rattle.strip_proof.specs.Faults.{Makes, due, is_order_row, order_checks};

use crate::fault::PlanFault;
use crate::field::scene_of;
use crate::row::read_due;
use std::alloc::Global;
use strip_model::Instance;
use strip_text::{Row, Rows};

/// Reads the scene numbers of the order, in the required row with this number.
pub(crate) fn read_order(
    alloc: Global,
    inst: &Instance,
    rows: &mut Rows<'_>,
    row: &mut Row,
    number: u64,
) -> Result<Vec<u16>, PlanFault>
    ensures makes { Makes (due number (order_checks inst.now) rows.old.left) result }
    ensures order { IfOk result (λ order. order.items ≡ map (scene_of inst.now) (drop 1 (row_of rows.old.left 0))) }
    ensures left { OnOk result (rows.new.left ≡ drop 1 rows.old.left) }
{
    read_due(rows, row, number)?;
    if !is_order_row(row) {
        return Err(PlanFault::BadRow { row: number });
    }
    order_in(alloc, inst, row, number)
}

fn is_order_row(row: &Row) -> bool
    ensures { result ≡ is_order_row row.now }
{
    row.len() >= 2 && row.field(0) == b"order".as_slice()
}

fn order_in(alloc: Global, inst: &Instance, row: &Row, number: u64) -> Result<Vec<u16>, PlanFault>
    ensures makes { Makes (checks_of_one (list_all (is_scene inst.now) (drop 1 row.now)) (UnknownScene number)) result }
    ensures order { IfOk result (λ order. order.items ≡ map (scene_of inst.now) (drop 1 row.now)) }
{
    let mut order = Vec::new(alloc);
    for place in 0..row.len().saturating_sub(1) {
        let Some(scene) = scene_of(inst, row.field(place + 1)) else {
            return Err(PlanFault::UnknownScene { row: number });
        };
        order.push(scene)?;
    }
    Ok(order)
}
