// The reader of plan texts.
ghost use Rattle.std.specs.Prelude.{◌≡◌, ◌∷◌, codes, IfOk};
ghost use Rattle.std.specs.Str.{bytes_eq};
ghost use Rattle.strip_text.specs.Rows.{field_of};
ghost use Rattle.strip_proof.specs.Plan.{plan_data};
ghost use Rattle.strip_proof.specs.Faults.{Makes};
ghost use Rattle.strip_proof.specs.Format.{checks_in, first_format, plan_checks, second_format};
ghost use Rattle.strip_proof.specs.Text.{IsReadablePlan, PlanRead, plan_in, plan_of};

use crate::fault::PlanFault;
use crate::head_rows::{read_count, read_front, read_head};
use crate::line_rows::{read_all_lines, read_counted_lines};
use crate::plan::Plan;
use crate::row::read_due;
use std::alloc::Global;
use strip_model::{Instance, Kind};
use strip_text::{Row, Rows};

/// Reads a plan of the instance from its text, or finds the text's first fault. It takes time in proportion to the size
/// of the text, and for each name of the order to the number of scenes. Besides the plan it takes memory for one row at
/// a time.
pub fn read_plan(alloc: Global, inst: &Instance, text: &[u8]) -> Result<Plan, PlanFault>
    ensures read { PlanRead inst.now text.now result }
    ensures fits { IfOk result (λ plan. IsReadablePlan inst.now (plan_data plan)) }
{
    let mut rows = Rows::new(alloc, text);
    read_rows(alloc, inst, &mut rows)
}

/// Reads the plan from all rows of a text.
fn read_rows(alloc: Global, inst: &Instance, rows: &mut Rows<'_>) -> Result<Plan, PlanFault>
    ensures makes { Makes (plan_checks inst.now rows.old.left) result }
    ensures plan { IfOk result (λ plan. plan_data plan ≡ plan_of inst.now rows.old.left) }
{
    let mut row = Row::new(alloc);
    read_due(rows, &mut row, 1)?;
    if is_second(&row) {
        read_second(alloc, inst, rows, &mut row)
    } else {
        read_first(alloc, inst, rows, &mut row)
    }
}

/// Tells whether a text with this first row has the second format.
fn is_second(row: &Row) -> bool
    ensures { result ≡ bytes_eq (field_of row.now 0) (codes "plan") }
{
    row.field(0) == b"plan".as_slice()
}

/// Reads a plan in the first format from this row and those after it.
fn read_first(
    alloc: Global,
    inst: &Instance,
    rows: &mut Rows<'_>,
    row: &mut Row,
) -> Result<Plan, PlanFault>
    ensures makes { Makes (checks_in inst.now (row.old ∷ rows.old.left)
        (first_format (row.old ∷ rows.old.left))) result }
    ensures plan { IfOk result (λ plan. plan_data plan
        ≡ plan_in inst.now (row.old ∷ rows.old.left) (first_format (row.old ∷ rows.old.left))) }
{
    let head = read_head(alloc, inst, Kind::Pairs, rows, row, 1)?;
    let lines = read_all_lines(alloc, rows, row)?;
    Ok(Plan { lines, ..head })
}

/// Reads a plan in the second format from this row and those after it.
fn read_second(
    alloc: Global,
    inst: &Instance,
    rows: &mut Rows<'_>,
    row: &mut Row,
) -> Result<Plan, PlanFault>
    ensures makes { Makes (checks_in inst.now (row.old ∷ rows.old.left)
        (second_format (row.old ∷ rows.old.left))) result }
    ensures plan { IfOk result (λ plan. plan_data plan
        ≡ plan_in inst.now (row.old ∷ rows.old.left) (second_format (row.old ∷ rows.old.left))) }
{
    let kind = read_front(rows, row)?;
    read_due(rows, row, 3)?;
    let head = read_head(alloc, inst, kind, rows, row, 3)?;
    let count = read_count(rows, row, 8)?;
    let lines = read_counted_lines(alloc, rows, row, count)?;
    Ok(Plan { lines, ..head })
}
