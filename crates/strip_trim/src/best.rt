// The best lines of a list, by set.
ghost use Rattle.std.specs.Prelude.{◌≡◌, IfOk};
ghost use Rattle.strip_trim.specs.Best.{AreBestLines, ArePlaced, IsPlaceOf, best_bound};

use std::alloc::Global;
use std::cmp::Reverse;
use std::marker::Model;
use strip_film::Line;
use strip_io::Memory;

/// The best line of a set in a list of lines: the first of those with the greatest bound. `line` is its index in the
/// list, and `bound` is in units of money.
#[derive(Clone, Copy, Debug, PartialEq, Eq)]
pub struct BestLine {
    pub line: usize,
    pub set: u64,
    pub bound: u64,
}

/// An index of a list of lines, with the best line of each set.
#[derive(Debug, Drop)]
pub struct Best<'l> {
    lines: &'l [Line],
    /// The sets of the entries, in an array of their own, since a binary search reads nothing else.
    sets: Vec<u64>,
    entries: Vec<BestLine>,
}

impl<'l> Model for Best<'l> {
    ghost use Rattle.std.specs.Prelude.{◌≡◌};
    ghost use Rattle.strip_trim.specs.Best.{AreBestLines, BestData, sets_of};

    ghost Value = { BestData };

    ghost view = { λ best. record { lines = best.lines.now; entries = best.entries.items } };

    ghost invariant = { λ best. AreBestLines best.lines.now best.entries.items × (best.sets.items ≡ sets_of best.entries.items) };
}

impl<'l> Best<'l> {
    /// Finds the best lines of a list, in time n log n and with some 32 bytes of memory for each line.
    pub fn of(alloc: Global, lines: &'l [Line]) -> Result<Best<'l>, Memory>
        ensures { IfOk result (λ best. best.lines ≡ lines.now) }
    {
        let entries = best_lines(alloc, lines)?;
        let sets = entries.iter().map(|best| best.set).collect(alloc)?;
        Ok(Best {
            lines,
            sets,
            entries,
        })
    }

    /// Returns the best lines by rising set, one for each set that has a line.
    pub fn entries(&self) -> &[BestLine]
        ensures entries { result.now ≡ self.now.entries }
        ensures best { AreBestLines self.now.lines self.now.entries }
    {
        &self.entries
    }

    /// Returns the index among `entries` of the set's best line, or none if no line has the set. It takes time log n.
    pub fn place(&self, set: u64) -> Option<usize>
        ensures place { IsPlaceOf self.now.entries set result }
        ensures best { AreBestLines self.now.lines self.now.entries }
    {
        self.sets.binary_search(&set).ok()
    }

    /// Returns the greatest bound of the lines with this set, in units of money, or 0 if there are none. It takes time
    /// log n.
    pub fn bound_of(&self, set: u64) -> u64
        ensures { result ≡ best_bound self.now.lines set }
    {
        match self.place(set) {
            Some(place) => self.entries[place].bound,
            None => 0,
        }
    }
}

/// Returns the best lines of a list, by rising set.
fn best_lines(alloc: Global, lines: &[Line]) -> Result<Vec<BestLine>, Memory>
    ensures { IfOk result (λ entries. AreBestLines lines.now entries.items) }
{
    let mut entries = placed(alloc, lines)?;
    entries.sort_unstable_by_key(|best| (best.set, Reverse(best.bound), best.line));
    entries.dedup_by_key(|best| best.set);
    Ok(entries)
}

/// Returns each line with its index.
fn placed(alloc: Global, lines: &[Line]) -> Result<Vec<BestLine>, Memory>
    ensures { IfOk result (λ placed. ArePlaced lines.now placed.items) }
{
    let mut placed = Vec::with_capacity(alloc, lines.len())?;
    for (line, &Line { set, bound }) in lines.iter().enumerate() {
        placed.push(BestLine { line, set, bound })?;
    }
    Ok(placed)
}
