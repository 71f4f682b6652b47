// The two shared words.
ghost use Rattle.std.specs.Prelude.{◌≡◌};

use crate::course::Course;
use crate::rule::Rule;
use crate::view::View;
use atomic_table::Table;
use std::alloc::Global;

/// The incumbent cost and the next part to be claimed, as two atomic words. Any number of workers step on them at once,
/// each with its own pass.
#[derive(Drop)]
pub struct Least {
    pub(crate) table: Table<(), View, Course, Rule, Global>,
    pub(crate) parts: u32,
    pub ghost two_words: { table.shared.table_id.words ≡ 2 },
    pub ghost counts: { parts ≡ table.shared.key.parts },
}
