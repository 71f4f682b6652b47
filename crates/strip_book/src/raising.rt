// Raising lines.
ghost use Rattle.strip_book.specs.Pass.{IsPassOf, MayRaiseKnown, Raises, known};

use crate::book::Book;
use crate::pass::BookPass;
use crate::rule::Raise;
use crate::words::bound_word;

impl BookPass {
    /// Raises the bound of a line to at least `bound`, in units of money. The pass must know the line, which any worker
    /// may have made. The lines that it knows must justify the bound.
    pub fn raise(&mut self, book: &Book, line: u32, bound: u64)
        requires pass { IsPassOf book.now self.old }
        requires may { MayRaiseKnown (known self.old) line bound }
        ensures pass { IsPassOf book.now self.new }
        ensures raised { Raises (known self.old) line bound (known self.new) }
    {
        let word = bound_word(line);
        book.table
            .shared
            .fetch_max::<Raise>(&mut self.seat, word, bound);
    }
}
