// The book of lines.
ghost use Rattle.std.specs.Prelude.{◌≡◌, ◌≤◌};
ghost use Rattle.strip_film.specs.Film.{IsFilm};
ghost use Rattle.strip_book.specs.Words.{word_count};

use crate::rule::Rule;
use crate::search::Search;
use crate::view::View;
use atomic_table::Table;
use std::alloc::Global;
use strip_film::Path;

/// The lines of a search, as atomic words on which any number of workers step at once, each with its own pass. It has
/// room for all lines of the line budget, 16 bytes each.
#[derive(Drop)]
pub struct Book {
    pub(crate) table: Table<Path, View, Search, Rule, Global>,
    pub(crate) nodes: u32,
    pub ghost words: { table.shared.table_id.words ≡ word_count nodes },
    pub ghost no_slots: { table.shared.table_id.slots ≡ 0 },
    pub ghost counts: { nodes ≡ table.shared.key.nodes },
    pub ghost small: { nodes ≤ 16777216 },
    pub ghost film: { IsFilm table.shared.key.film },
}
