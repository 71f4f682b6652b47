// The book to which the entries of a table belong.
use std::marker::Brand;

/// A type that names a book, by its words and their search. It lets the invariant of a lock's contents refer to the
/// book.
pub trait Named {
    ghost use Rattle.strip_book.specs.Pass.{TableData};

    ghost table: { TableData };
}

impl Named for Brand {
    ghost use Rattle.strip_stripes.specs.Named.{no_table};

    ghost table = { no_table };
}
