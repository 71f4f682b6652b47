// Reading the lines of a book at the end.
ghost use Rattle.std.specs.Prelude.{◌≡◌, ℕ, ◌<◌, ◌≤◌, IfOk, length, slice_index};
ghost use Rattle.std.specs.Mem.Slots.{IsFull, slots_items, slots_len};
ghost use Rattle.strip_lines.specs.Lines.{line_at};
ghost use Rattle.strip_book.specs.Pass.{AreAll, IsPassOf, known};
ghost use Rattle.strip_book.specs.Rule.{full_weight};
ghost use Rattle.strip_book.specs.Words.{bound_word, set_word, word_count};

use crate::book::Book;
use crate::pass::BookPass;
use crate::words::{COUNT, bound_word, set_word};
use atomic_table::Closed;
use std::alloc::Global;
use strip_film::{Line, Path};
use strip_io::Memory;

impl Book {
    /// Returns all lines, by line number. All other passes must have been joined into this one, so that it has the full
    /// weight. It fails only if memory runs out.
    pub fn into_lines(self, alloc: Global, pass: BookPass) -> Result<Vec<Line>, Memory>
        requires pass { IsPassOf self pass }
        requires full { (known pass).weight ≡ full_weight }
        ensures { IfOk result (λ lines. AreAll (known pass) lines.items) }
    {
        let Book { table, nodes } = self;
        let BookPass { seat, .. } = pass;
        let closed = table.close_with(seat);
        let count = closed.word(COUNT).min(u64::from(nodes)) as u32;
        let lines = read_lines(alloc, &closed, count);
        closed.free();
        lines
    }
}

/// Reads the first `count` lines of a book on which no pass steps any more.
fn read_lines(alloc: Global, closed: &Closed<Path, Global>, count: u32) -> Result<Vec<Line>, Memory>
    requires full { IsFull closed.now.words }
    requires words { word_count count ≤ slots_len closed.now.words }
    ensures count { IfOk result (λ lines. length lines.items ≡ count) }
    ensures lines { IfOk result (λ lines. (number : ℕ) → number < count → line_at lines.items number ≡ record {
      set = slice_index (slots_items closed.now.words) (set_word number);
      bound = slice_index (slots_items closed.now.words) (bound_word number);
    }) }
{
    let mut lines = Vec::with_capacity(alloc, count as usize)?;
    for number in 0..count {
        lines.push(Line {
            set: closed.word(set_word(number)),
            bound: closed.word(bound_word(number)),
        })?;
    }
    Ok(lines)
}
