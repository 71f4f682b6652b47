// Lines, indexed by their sets.
ghost use Rattle.std.specs.Prelude.{◌≡◌, ◌<◌, ◌==◌, [], ◌++◌, ◌∷◌, None, map, max, take, vec_len, IfOk};
ghost use Rattle.std.specs.List.{position};
ghost use Rattle.strip_lines.specs.Lines.{line_at, with_raised};

use indexmap::IndexSet;
use std::alloc::Global;
use strip_film::Line;
use strip_io::Memory;
use strip_mask::Mask;

/// Lines in the order of their creation, with an index by set.
#[derive(Debug, Drop)]
pub(crate) struct Sheet {
    lines: Vec<Line>,
    // The set of each line, in the order of `lines`.
    sets: IndexSet<u64>,
    pub ghost by_set: { sets.keys ≡ map (λ line. line.set) lines.items },
}

impl Sheet {
    /// Returns a sheet without lines.
    pub(crate) fn new(alloc: Global) -> Sheet
        ensures { result.lines.items ≡ [] }
    {
        Sheet {
            lines: Vec::new(alloc),
            sets: IndexSet::new(alloc),
        }
    }

    /// Returns the number of lines.
    pub(crate) fn len(&self) -> usize
        ensures { result ≡ vec_len self.now.lines }
    {
        self.lines.len()
    }

    /// Returns the index of the first line of the set.
    pub(crate) fn place_of(&self, q: Mask) -> Option<usize>
        ensures { result ≡ position (λ line. line.set == q.0) self.now.lines.items }
    {
        self.sets.get_index_of(&q.0)
    }

    /// Returns the bound of the line at an index, in units of money.
    pub(crate) fn bound_at(&self, place: usize) -> u64
        requires { place < vec_len self.now.lines }
        ensures { result ≡ (line_at self.now.lines.items place).bound }
    {
        self.lines[place].bound
    }

    /// Returns the set of the line at an index.
    pub(crate) fn set_at(&self, place: usize) -> Mask
        requires { place < vec_len self.now.lines }
        ensures { result.0 ≡ (line_at self.now.lines.items place).set }
    {
        Mask(self.lines[place].set)
    }

    /// Appends a line. No other line has its set.
    pub(crate) fn push(&mut self, line: Line) -> Result<(), Memory>
        requires new { position (λ other. other.set == line.set) self.old.lines.items ≡ None }
        ensures { IfOk result (λ _. self.new.lines.items ≡ self.old.lines.items ++ line ∷ []) }
    {
        // Room first: if memory is refused, both lists stay as they are.
        self.sets.reserve(1)?;
        self.lines.push(line)?;
        self.sets.insert(line.set)?;
        Ok(())
    }

    /// Raises the line at an index to the bound, if its own is less, and returns the bound that it then has.
    pub(crate) fn raise(&mut self, place: usize, bound: u64) -> u64
        requires { place < vec_len self.old.lines }
        ensures lines { self.new.lines.items ≡ with_raised self.old.lines.items place bound }
        ensures bound { result ≡ max (line_at self.old.lines.items place).bound bound }
    {
        let raised = self.lines[place].bound.max(bound);
        self.lines[place].bound = raised;
        raised
    }

    /// Keeps the first `count` lines only.
    pub(crate) fn truncate(&mut self, count: usize)
        ensures { self.new.lines.items ≡ take count self.old.lines.items }
    {
        self.lines.truncate(count);
        self.sets.truncate(count);
    }

    /// Returns the lines in their order.
    pub(crate) fn into_lines(self) -> Vec<Line>
        ensures { result ≡ self.lines }
    {
        let Sheet { lines, .. } = self;
        lines
    }
}
