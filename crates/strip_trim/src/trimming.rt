// Trimming of a list of lines.
ghost use Rattle.std.specs.Prelude.{◌≡◌, length, IfOk};
ghost use Rattle.strip_lines.specs.Lines.{AreJustified, rules_of};
ghost use Rattle.strip_trim.specs.Marks.{marked_lines};
ghost use Rattle.strip_trim.specs.Trimmed.{AreTrimmed};

use crate::Best;
use crate::marks::marks_of;
use std::alloc::Global;
use strip_bound::Bounds;
use strip_film::Line;
use strip_io::Memory;
use strip_memo::Memo;

/// Returns the best line of each reached set, if the set has a line, in the order of the list: these are the lines that
/// the bound of all scenes needs.
///
/// The set of all scenes is reached. If the best line of a reached set has a bound above the static bound, sets after
/// its open firsts are reached too. Such a set is reached if the step plus its static bound is less than the line's
/// bound.
///
/// It takes time n log n. Each reached set costs a static bound, a step for each open first, and a static bound for
/// each line that it leads to. The memo answers the bounds; the memo of the search that made the lines serves best.
pub fn trim<B: Bounds>(
    alloc: Global,
    bounds: &B,
    memo: &mut Memo<B>,
    lines: &[Line],
) -> Result<Vec<Line>, Memory>
    requires justified { AreJustified (rules_of B.kind B.film) lines.now }
    ensures trimmed { IfOk result (λ trimmed. AreTrimmed
        (rules_of B.kind B.film) lines.now trimmed.items) }
{
    let best = Best::of(alloc, lines)?;
    let marks = marks_of(alloc, bounds, memo, &best, lines.len())?;
    marked(alloc, lines, &marks)
}

/// Returns the marked lines.
fn marked(alloc: Global, lines: &[Line], marks: &[bool]) -> Result<Vec<Line>, Memory>
    requires { length marks.now ≡ length lines.now }
    ensures { IfOk result (λ kept. kept.items ≡ marked_lines lines.now marks.now) }
{
    let mut kept = Vec::new(alloc);
    for (place, line) in lines.iter().enumerate() {
        if marks[place] {
            kept.push(*line)?;
        }
    }
    Ok(kept)
}
