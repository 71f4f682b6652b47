// The lines that stay, as marks by index.
ghost use Rattle.std.specs.Prelude.{◌≡◌, ◌↔◌, ℕ, ◌<◌, false, length, IfOk, IsTrue};
ghost use Rattle.strip_film.specs.Film.{LiesIn};
ghost use Rattle.strip_bound.specs.Bounds.{bound};
ghost use Rattle.strip_lines.specs.Lines.{AreJustified, rules_of};
ghost use Rattle.strip_trim.specs.Best.{best_bound};
ghost use Rattle.strip_trim.specs.Marks.{AreMarked, Follows, IsBestOf, MarksMore, is_marked};

use crate::{Best, BestLine};
use std::alloc::Global;
use strip_bound::Bounds;
use strip_film::step;
use strip_io::Memory;
use strip_mask::Mask;
use strip_memo::Memo;
use strip_rule::open_firsts;

/// Returns for each line whether it stays: whether it is the best line of its set, and the set is reached.
pub(crate) fn marks_of<B: Bounds>(
    alloc: Global,
    bounds: &B,
    memo: &mut Memo<B>,
    best: &Best,
    count: usize,
) -> Result<Vec<bool>, Memory>
    requires justified { AreJustified (rules_of B.kind B.film) best.now.lines }
    requires count { count ≡ length best.now.lines }
    ensures marked { IfOk result (λ marks. AreMarked
        (rules_of B.kind B.film) best.now.lines marks.items) }
{
    let mut marks = vec![in alloc; false; count]?;
    mark_reached(bounds, memo, best, &mut marks);
    Ok(marks)
}

/// Marks the lines that stay. A reached set leads only to smaller numbers, so one pass by falling set handles each set
/// after all sets that lead to it.
fn mark_reached<B: Bounds>(bounds: &B, memo: &mut Memo<B>, best: &Best, marks: &mut [bool])
    requires justified { AreJustified (rules_of B.kind B.film) best.now.lines }
    requires count { length marks.old ≡ length best.now.lines }
    requires none { (place : ℕ) → is_marked marks.old place ≡ false }
    ensures marked { AreMarked (rules_of B.kind B.film) best.now.lines marks.new }
{
    mark(best, marks, bounds.film().all());
    for entry in best.entries().iter().rev() {
        if marks[entry.line] {
            mark_followers(bounds, memo, best, marks, entry);
        }
    }
}

/// Marks the lines that the bound of a set's best line depends on.
fn mark_followers<B: Bounds>(
    bounds: &B,
    memo: &mut Memo<B>,
    best: &Best,
    marks: &mut [bool],
    entry: &BestLine,
)
    requires count { length marks.old ≡ length best.now.lines }
    requires lies { LiesIn B.film entry.now.set }
    requires bound { entry.now.bound ≡ best_bound best.now.lines entry.now.set }
    ensures marked { MarksMore marks.old marks.new
        (Follows (rules_of B.kind B.film) best.now.lines entry.now.set) }
{
    let film = bounds.film();
    let q = Mask(entry.set);
    if !is_below(bounds, memo, q, entry.bound) {
        return;
    }
    film.keeps_limits();
    for s in open_firsts(film, q).iter() {
        let rest = q.without(s);
        let need = entry.bound.saturating_sub(step(film, q, s));
        mark_below(bounds, memo, best, marks, rest, need);
    }
}

/// Marks the best line of the set, if there is one and the set's static bound is below `need`. The bound is requested
/// only if the line isn't marked yet.
fn mark_below<B: Bounds>(
    bounds: &B,
    memo: &mut Memo<B>,
    best: &Best,
    marks: &mut [bool],
    q: Mask,
    need: u64,
)
    requires count { length marks.old ≡ length best.now.lines }
    requires lies { LiesIn B.film q.0 }
    ensures marked { MarksMore marks.old marks.new (λ place. (bound B.kind B.film q.0 < need)
        × IsBestOf best.now.lines q.0 place) }
{
    if let Some(place) = best.place(q.0) {
        let line = best.entries()[place].line;
        if !marks[line] && is_below(bounds, memo, q, need) {
            marks[line] = true;
        }
    }
}

/// Tells whether the static bound of the set is below `need`.
fn is_below<B: Bounds>(bounds: &B, memo: &mut Memo<B>, q: Mask, need: u64) -> bool
    requires lies { LiesIn B.film q.0 }
    ensures below { IsTrue result ↔ (bound B.kind B.film q.0 < need) }
{
    memo.reach(bounds, q, need) < need
}

/// Marks the best line of the set, if there is one.
fn mark(best: &Best, marks: &mut [bool], q: Mask)
    requires { length marks.old ≡ length best.now.lines }
    ensures { MarksMore marks.old marks.new (IsBestOf best.now.lines q.0) }
{
    if let Some(place) = best.place(q.0) {
        marks[best.entries()[place].line] = true;
    }
}
