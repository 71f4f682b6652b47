// The shared state of the workers.
use strip_book::Book;
use strip_least::Least;
use strip_stripes::{Named, Stripes};

/// The shared state of the workers: the incumbent cost and the next part, the book of their lines, and the
/// transposition table in which they look lines up.
#[derive(Drop)]
pub(crate) struct Tables<N: Named> {
    pub(crate) least: Least,
    pub(crate) book: Book,
    pub(crate) stripes: Stripes<N>,
}
