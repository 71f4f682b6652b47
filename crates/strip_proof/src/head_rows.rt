// The rows of a plan before its lines.
ghost use Rattle.std.specs.Prelude.{◌≡◌, ◌∷◌, ◌++◌, ◌≤◌, ◌+◌, drop, codes, IfOk, OnOk};
ghost use Rattle.std.specs.Str.{bytes_eq};
ghost use Rattle.strip_text.specs.Number.{number_of};
ghost use Rattle.strip_text.specs.Rows.{field_of};
ghost use Rattle.strip_proof.specs.Plan.{plan_data};
ghost use Rattle.strip_proof.specs.Field.{is_amount, is_kind, is_status, kind_of, status_of};
ghost use Rattle.strip_proof.specs.Faults.{Makes, count_checks, due, is_pair, plan_row_checks, row_is};
ghost use Rattle.strip_proof.specs.Format.{value_of};
ghost use Rattle.strip_proof.specs.Text.{head_of};

use crate::fault::PlanFault;
use crate::field::{amount_of, kind_of, status_of};
use crate::line_rows::MAX_LINES;
use crate::order::read_order;
use crate::plan::{Plan, Status};
use crate::row::{begins, read_due};
use std::alloc::Global;
use strip_model::{Instance, Kind};
use strip_text::{Row, Rows};

/// Reads the plan without its lines. `row` has the first of the five rows that every plan has, with the number `first`;
/// the other rows follow.
pub(crate) fn read_head(
    alloc: Global,
    inst: &Instance,
    kind: Kind,
    rows: &mut Rows<'_>,
    row: &mut Row,
    first: u64,
) -> Result<Plan, PlanFault>
    requires { first ≤ 3 }
    ensures makes { Makes (plan_row_checks inst.now first (row.old ∷ rows.old.left)) result }
    ensures plan { IfOk result (λ plan. plan_data plan ≡ head_of inst.now kind (row.old ∷ rows.old.left)) }
    ensures left { OnOk result (rows.new.left ≡ drop 4 rows.old.left) }
{
    let status = status_in(row, first)?;
    let cost = read_amount(rows, row, b"cost", first + 1)?;
    let bound = read_amount(rows, row, b"bound", first + 2)?;
    let held = read_amount(rows, row, b"lines", first + 3)?;
    let order = read_order(alloc, inst, rows, row, first + 4)?;
    Ok(Plan {
        status,
        kind,
        cost,
        bound,
        held,
        order,
        lines: Vec::new(alloc),
    })
}

/// Reads the kind of bounds from the next row. `row` has the first row of the second format.
pub(crate) fn read_front(rows: &mut Rows<'_>, row: &mut Row) -> Result<Kind, PlanFault>
    ensures makes { Makes (due 1 (row_is (is_pair (codes "plan")
        (λ value. bytes_eq value (codes "2")))) (row.old ∷ rows.old.left)
        ++ due 2 (row_is (is_pair (codes "bounds") is_kind)) rows.old.left) result }
    ensures kind { IfOk result (λ kind. kind ≡ kind_of (value_of rows.old.left 0)) }
    ensures left { OnOk result (rows.new.left ≡ drop 1 rows.old.left) }
{
    if !is_format_row(row) {
        return Err(PlanFault::BadRow { row: 1 });
    }
    read_due(rows, row, 2)?;
    kind_in(row, 2)
}

fn is_format_row(row: &Row) -> bool
    ensures { result ≡ is_pair (codes "plan") (λ value. bytes_eq value (codes "2")) row.now }
{
    begins(b"plan", 2, row) && row.field(1) == b"2".as_slice()
}

fn kind_in(row: &Row, number: u64) -> Result<Kind, PlanFault>
    ensures makes { Makes (row_is (is_pair (codes "bounds") is_kind) number row.now) result }
    ensures kind { IfOk result (λ kind. kind ≡ kind_of (field_of row.now 1)) }
{
    if !begins(b"bounds", 2, row) {
        return Err(PlanFault::BadRow { row: number });
    }
    kind_of(row.field(1)).ok_or(PlanFault::BadRow { row: number })
}

fn status_in(row: &Row, number: u64) -> Result<Status, PlanFault>
    ensures makes { Makes (row_is (is_pair (codes "status") is_status) number row.now) result }
    ensures status { IfOk result (λ status. status ≡ status_of (field_of row.now 1)) }
{
    if !begins(b"status", 2, row) {
        return Err(PlanFault::BadRow { row: number });
    }
    status_of(row.field(1)).ok_or(PlanFault::BadRow { row: number })
}

/// Reads the number after this word, in the required row with this number.
fn read_amount(
    rows: &mut Rows<'_>,
    row: &mut Row,
    word: &[u8],
    number: u64,
) -> Result<u64, PlanFault>
    ensures makes { Makes (due number (row_is (is_pair word.now is_amount)) rows.old.left) result }
    ensures amount { IfOk result (λ amount. amount ≡ number_of (value_of rows.old.left 0)) }
    ensures left { OnOk result (rows.new.left ≡ drop 1 rows.old.left) }
{
    read_due(rows, row, number)?;
    amount_in(row, word, number)
}

fn amount_in(row: &Row, word: &[u8], number: u64) -> Result<u64, PlanFault>
    ensures makes { Makes (row_is (is_pair word.now is_amount) number row.now) result }
    ensures amount { IfOk result (λ amount. amount ≡ number_of (field_of row.now 1)) }
{
    if !begins(word, 2, row) {
        return Err(PlanFault::BadRow { row: number });
    }
    amount_of(row.field(1)).ok_or(PlanFault::BadRow { row: number })
}

/// Reads the number of line rows that follow the required row with this number.
pub(crate) fn read_count(rows: &mut Rows<'_>, row: &mut Row, number: u64) -> Result<u64, PlanFault>
    ensures makes { Makes (due number count_checks rows.old.left) result }
    ensures count { IfOk result (λ count. count ≡ number_of (value_of rows.old.left 0)) }
    ensures few { IfOk result (λ count. count ≤ 16_777_216) }
    ensures left { OnOk result (rows.new.left ≡ drop 1 rows.old.left) }
{
    let count = read_amount(rows, row, b"proof", number)?;
    if count > MAX_LINES {
        return Err(PlanFault::TooManyLines);
    }
    Ok(count)
}
