// The knowledge of a pass.
use crate::entry::Entry;
use crate::search::Search;
use std::collections::LinkedList;
use std::marker::Model;
use strip_film::{Line, Path};

/// The knowledge of a pass. It exists in proofs only: no value of it is made. `weight` is its share of the first pass.
/// `lines` are the lines that it knows, by line number, and `heard` those that it got from another. `part` and `path`
/// are what it announced, and `at` is the number of the line that it writes.
pub struct View {
    pub weight: u64,
    pub spent: bool,
    pub search: Search,
    pub entries: LinkedList<Entry>,
    pub lines: LinkedList<Line>,
    pub heard: LinkedList<Line>,
    pub part: u32,
    pub path: Path,
    pub writing: bool,
    pub half: bool,
    pub at: u64,
}

impl Model for View {
    ghost use Rattle.std.specs.Prelude.{map};
    ghost use Rattle.strip_film.specs.Shown.{path_data};
    ghost use Rattle.strip_book.specs.Shown.{entry_data};
    ghost use Rattle.strip_book.specs.View.{ViewData};

    ghost Value = { ViewData };

    ghost view = { λ v. record {
      weight = v.weight;
      spent = v.spent;
      search = v.search;
      entries = map entry_data v.entries;
      lines = v.lines;
      heard = v.heard;
      about = record { part = v.part; path = path_data v.path };
      writing = v.writing;
      half = v.half;
      at = v.at;
    } };
}
