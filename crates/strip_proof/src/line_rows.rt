// The line rows of a plan text.
ghost use Rattle.std.specs.Prelude.{◌≡◌, ◌≤◌, ◌∷◌, ◌++◌, [], length, map, IfOk, OnOk};
ghost use Rattle.strip_proof.specs.Faults.{Makes, is_line_row, line_checks, lines_checks, row_is};
ghost use Rattle.strip_proof.specs.Text.{line_of};

use crate::fault::PlanFault;
use crate::field::{amount_of, set_of};
use crate::row::{begins, next_row, read_due};
use std::alloc::Global;
use strip_film::Line;
use strip_text::{Row, Rows};

/// The greatest number of lines in a plan text.
pub(crate) const MAX_LINES: u64 = 16_777_216;

/// Reads the lines of all remaining rows, from row 6 on.
pub(crate) fn read_all_lines(
    alloc: Global,
    rows: &mut Rows<'_>,
    row: &mut Row,
) -> Result<Vec<Line>, PlanFault>
    ensures makes { Makes (lines_checks 6 (length rows.old.left) rows.old.left) result }
    ensures lines { IfOk result (λ lines. lines.items ≡ map line_of rows.old.left) }
{
    let mut lines = Vec::new(alloc);
    let mut there = next_row(rows, row)?;
    while there {
        let number = 6 + lines.len() as u64;
        take_line(&mut lines, row, number)?;
        there = next_row(rows, row)?;
    }
    Ok(lines)
}

/// Reads the lines of all remaining rows, from row 9 on. There have to be `count` rows.
pub(crate) fn read_counted_lines(
    alloc: Global,
    rows: &mut Rows<'_>,
    row: &mut Row,
    count: u64,
) -> Result<Vec<Line>, PlanFault>
    requires { count ≤ 16_777_216 }
    ensures makes { Makes (lines_checks 9 count rows.old.left) result }
    ensures lines { IfOk result (λ lines. lines.items ≡ map line_of rows.old.left) }
{
    let mut lines = Vec::new(alloc);
    for place in 0..count {
        read_due(rows, row, 9 + place)?;
        take_line(&mut lines, row, 9 + place)?;
    }
    if next_row(rows, row)? {
        return Err(PlanFault::BadRow { row: 9 + count });
    }
    Ok(lines)
}

/// Appends the line of the row with this number.
fn take_line(lines: &mut Vec<Line>, row: &Row, number: u64) -> Result<(), PlanFault>
    ensures makes { Makes (line_checks (length lines.old.items) number row.now) result }
    ensures taken { OnOk result (lines.new.items ≡ lines.old.items ++ line_of row.now ∷ []) }
    ensures few { OnOk result (length lines.new.items ≤ 16_777_216) }
{
    let line = line_in(row, number)?;
    if lines.len() as u64 >= MAX_LINES {
        return Err(PlanFault::TooManyLines);
    }
    lines.push(line)?;
    Ok(())
}

/// Reads the line of the row with this number.
fn line_in(row: &Row, number: u64) -> Result<Line, PlanFault>
    ensures makes { Makes (row_is is_line_row number row.now) result }
    ensures line { IfOk result (λ line. line ≡ line_of row.now) }
{
    if !begins(b"line", 3, row) {
        return Err(PlanFault::BadRow { row: number });
    }
    let Some(set) = set_of(row.field(1)) else {
        return Err(PlanFault::BadRow { row: number });
    };
    let Some(bound) = amount_of(row.field(2)) else {
        return Err(PlanFault::BadRow { row: number });
    };
    Ok(Line { set, bound })
}
