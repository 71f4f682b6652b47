// Making a book and its first pass.
ghost use Rattle.std.specs.Prelude.{◌≤◌, IfOk, map};
ghost use Rattle.strip_film.specs.Shown.{path_data};
ghost use Rattle.strip_book.specs.Pass.{IsFirst};

use crate::book::Book;
use crate::pass::BookPass;
use crate::search::Search;
use crate::words::word_count;
use atomic_table::Table;
use std::alloc::Global;
use strip_film::{Film, Path};
use strip_io::Memory;
use strip_model::Kind;

impl Book {
    /// Makes the book of a search of the film with static bounds of this kind, and its first pass. Its paths belong to
    /// these tasks, and are below the start path's pay `start`, in units of money. It holds at most `nodes` lines, up to
    /// 16,777,216. The pass has the full weight, 2^32, and the first desk. It fails only if memory runs out.
    pub fn new(
        alloc: Global,
        film: &Film,
        kind: Kind,
        start: u64,
        tasks: &[Path],
        nodes: u32,
    ) -> Result<(Book, BookPass), Memory>
        requires { nodes ≤ 16777216 }
        ensures { IfOk result (λ made. IsFirst (record {
          film = film.now;
          kind = kind;
          nodes = nodes;
          start = start;
          tasks = map path_data tasks.now;
        }) made.0 made.1) }
    {
        film.keeps_limits();
        // The rule refers to its own copies of the film and the tasks, so that the book borrows none.
        let search = Search {
            film: film.copy()?,
            kind,
            nodes,
            start,
            tasks: tasks.to_vec(alloc)?,
        };
        let words = vec![in alloc; 0u64; word_count(nodes)]?;
        let (table, seat) = Table::of_words(alloc, &words, &search)?;
        let pass = BookPass {
            seat,
            desk: 0,
            is_spent: false,
        };
        Ok((Book { table, nodes }, pass))
    }
}
