// The layout of a book's words.
ghost use Rattle.std.specs.Prelude.{◌≡◌, ◌<◌};
ghost use Rattle.strip_book.specs.Words.{bound_word, desk_word, set_word, word_count};

/// A word that nobody changes. Passes read it in the steps by which they learn lines.
pub(crate) const QUIET: usize = 0;

/// The counter of lines. It also counts the draws that found no line left.
pub(crate) const COUNT: usize = 16;

/// Returns the word of a desk, one of 64, at which a worker announces its next line.
pub(crate) fn desk_word(desk: u32) -> usize
    requires { desk < 64 }
    ensures { result ≡ desk_word desk }
{
    32 + 16 * desk as usize
}

/// Returns the word of a line's set.
pub(crate) fn set_word(line: u32) -> usize
    ensures { result ≡ set_word line }
{
    1056 + 2 * line as usize
}

/// Returns the word of a line's bound, in units of money.
pub(crate) fn bound_word(line: u32) -> usize
    ensures { result ≡ bound_word line }
{
    1057 + 2 * line as usize
}

/// Returns the number of words of a book of `nodes` lines.
pub(crate) fn word_count(nodes: u32) -> usize
    ensures { result ≡ word_count nodes }
{
    1056 + 2 * nodes as usize
}
