// Reads of a book that need no pass.
ghost use Rattle.std.specs.Prelude.{◌≡◌, ◌≤◌};
ghost use Rattle.strip_book.specs.Pass.{search_of};

use crate::book::Book;
use crate::words::COUNT;

impl Book {
    /// Returns the number of lines drawn so far. It needs no pass, and gives a pass no knowledge.
    pub fn peek(&self) -> u32
        ensures { result ≤ (search_of self.now).nodes }
    {
        let drawn = self.table.shared.peek(COUNT);
        drawn.min(u64::from(self.nodes)) as u32
    }

    /// Returns the line budget.
    pub fn nodes(&self) -> u32
        ensures { result ≡ (search_of self.now).nodes }
    {
        self.nodes
    }
}
