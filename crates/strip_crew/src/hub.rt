// Making a hub, and taking it apart.
ghost use Rattle.std.specs.Prelude.{◌≡◌, Some, None};
ghost use Rattle.strip_book.specs.Pass.{IsPassOf as IsBookPassOf, known, table_of};
ghost use Rattle.strip_least.specs.Pass.{IsPassOf as IsLeastPassOf, known as known_least};
ghost use Rattle.strip_crew.specs.Hub.{GoTogether, IsHub, IsSearch};

use crate::asked::Asked;
use crate::source::Source;
use std::sync::Wait;
use strip_book::{Book, BookPass};
use strip_film::Known;
use strip_least::{Least, LeastPass};
use strip_stripes::{Named, Stripes};

/// The hand of one worker among several. It has a pass of the least cost and the next part, a pass of the book of
/// lines, and the shared table. It also has the source of the worker's parts, and its last probe and note. Its calls
/// never fail for want of memory.
#[derive(Drop)]
pub struct Hub<'a, R: Wait, N: Named> {
    pub(crate) rt: &'a R,
    pub(crate) least: &'a Least,
    pub(crate) book: &'a Book,
    pub(crate) stripes: &'a Stripes<N>,
    pub(crate) told: LeastPass,
    pub(crate) lines: BookPass,
    pub(crate) source: Source,
    pub(crate) asked: Option<Asked>,
    pub(crate) noted: Option<Known>,
}

/// The passes of a hub, and the source of its parts.
#[derive(Drop)]
pub struct HubParts {
    pub told: LeastPass,
    pub lines: BookPass,
    pub source: Source,
}

impl<'a, R: Wait, N: Named> Hub<'a, R, N> {
    /// Makes the hand of a worker from passes that belong to one search. It has no probe and no note yet.
    pub fn of(
        rt: &'a R,
        least: &'a Least,
        book: &'a Book,
        stripes: &'a Stripes<N>,
        passes: HubParts,
    ) -> Hub<'a, R, N>
        requires told { IsLeastPassOf least.now passes.told }
        requires lines { IsBookPassOf book.now passes.lines }
        requires named { table_of book.now ≡ N.table }
        requires together { GoTogether passes.source (known_least passes.told) (known passes.lines) }
        requires search { IsSearch (known passes.lines) }
        ensures hub { IsHub N.table result.least.now result.book.now result.source result.told result.lines }
        ensures least { result.least.now ≡ least.now }
        ensures book { result.book.now ≡ book.now }
        ensures passes { (result.told ≡ passes.told) × (result.lines ≡ passes.lines) × (result.source ≡ passes.source) }
        ensures unasked { (result.asked ≡ None) × (result.noted ≡ None) }
    {
        let HubParts {
            told,
            lines,
            source,
        } = passes;
        Hub {
            rt,
            least,
            book,
            stripes,
            told,
            lines,
            source,
            asked: None,
            noted: None,
        }
    }

    /// Returns the passes.
    pub fn parts(self) -> HubParts
        ensures { (result.told ≡ self.entry.told) × (result.lines ≡ self.entry.lines)
            × (result.source ≡ self.entry.source) }
    {
        HubParts {
            told: self.told,
            lines: self.lines,
            source: self.source,
        }
    }
}
