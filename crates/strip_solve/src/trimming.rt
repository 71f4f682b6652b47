// The lines that the bound of a search needs.
ghost use Rattle.std.specs.Prelude.{IfOk};
ghost use Rattle.strip_lines.specs.Lines.{AreJustified, rules_of};
ghost use Rattle.strip_lines.specs.Ended.{ended_data};
ghost use Rattle.strip_solve.specs.Searched.{IsTrimmed};

use std::alloc::Global;
use strip_bound::Bounds;
use strip_film::Line;
use strip_io::Memory;
use strip_lines::Ended;
use strip_memo::Memo;
use strip_trim::trim;

/// Returns the lines that the bound needs, if the bound is the lesser of the cost and `own`, the cost of the rows'
/// order.
pub fn trimmed<B: Bounds>(
    alloc: Global,
    bounds: &B,
    memo: &mut Memo<B>,
    ended: &Ended,
    own: u64,
) -> Result<Option<Vec<Line>>, Memory>
    requires lines { AreJustified (rules_of B.kind B.film) ended.now.lines.items }
    ensures { IfOk result (IsTrimmed B.kind B.film own (ended_data ended.now)) }
{
    if ended.bound == ended.cost.min(own) {
        Ok(Some(trim(alloc, bounds, memo, &ended.lines)?))
    } else {
        Ok(None)
    }
}
