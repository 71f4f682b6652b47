// The invariant of a book, and the kinds of steps on its words.
ghost use Rattle.std.specs.Prelude.{◌≡◌};

use crate::search::Search;
use crate::view::View;
use atomic_table::{Join, Play, Split, TableRule};
use strip_film::Path;

/// The invariant of the words and of the knowledge of all passes, which every step keeps.
pub struct Rule;

impl TableRule<Path, View, Search> for Rule {
    ghost use Rattle.strip_book.specs.Rule.{IsBook, first_view};

    ghost holds = { λ search state. IsBook search state };

    ghost first = { first_view };
}

/// The step that announces a path of a part. The operand is the part's number.
pub struct Announce;

impl Play<Path, View> for Announce {
    ghost use Rattle.strip_book.specs.Steps.{HasAnnounced};

    ghost then = { λ step before found after. HasAnnounced step.said step.first before.0 after.0 × (after.1 ≡ before.1) };
}

/// The step that begins a part. The operand is the part's number.
pub struct Begin;

impl Play<Path, View> for Begin {
    ghost use Rattle.strip_book.specs.Steps.{with_part};

    ghost then = { λ step before found after. (after.0 ≡ with_part before.0 step.first) × (after.1 ≡ before.1) };
}

/// The step that draws the number of the next line.
pub struct Draw;

impl Play<Path, View> for Draw {
    ghost use Rattle.strip_book.specs.Steps.{HasDrawn};

    ghost then = { λ step before found after. HasDrawn before.0 found after.0 × (after.1 ≡ before.1) };
}

/// The step that writes the bound of the line drawn.
pub struct WriteBound;

impl Play<Path, View> for WriteBound {
    ghost use Rattle.strip_book.specs.Steps.{half_written};

    ghost then = { λ step before found after. (after.0 ≡ half_written before.0) × (after.1 ≡ before.1) };
}

/// The step that writes the set of the line drawn.
pub struct WriteSet;

impl Play<Path, View> for WriteSet {
    ghost use Rattle.strip_book.specs.Steps.{written};

    ghost then = { λ step before found after. (after.0 ≡ written before.0) × (after.1 ≡ before.1) };
}

/// The step that raises the bound of a line.
pub struct Raise;

impl Play<Path, View> for Raise {
    ghost use Rattle.strip_book.specs.Steps.{HasRaised};

    ghost then = { λ step before found after. HasRaised step.word step.first before.0 after.0 × (after.1 ≡ before.1) };
}

/// The read by which a pass learns all lines.
pub struct See;

impl Play<Path, View> for See {
    ghost use Rattle.strip_book.specs.Steps.{HasSeen};

    ghost then = { λ step before found after. HasSeen before.0 after.0 × (after.1 ≡ before.1) };
}

/// The read by which a copy learns all lines.
pub struct Compare;

impl Play<Path, View> for Compare {
    ghost use Rattle.strip_book.specs.Steps.{HasCompared};

    ghost then = { λ step before found after. HasCompared before.0 after.0 × (after.1 ≡ before.1) };
}

/// The split of a pass: a new one gets a weight of 1.
pub struct Cut;

impl Split<View> for Cut {
    ghost use Rattle.strip_book.specs.Steps.{lightened, split_off};

    ghost left = { lightened };

    ghost right = { split_off };
}

/// The join of a pass into another.
pub struct Merge;

impl Join<View> for Merge {
    ghost use Rattle.strip_book.specs.Rule.{spent_view};
    ghost use Rattle.strip_book.specs.Steps.{joined};

    ghost both = { joined };

    ghost spent = { spent_view };
}

/// The split of a copy from a pass or a copy.
pub struct Copied;

impl Split<View> for Copied {
    ghost use Rattle.strip_book.specs.Steps.{copied};

    ghost left = { λ v. v };

    ghost right = { copied };
}

/// The join of a copy into a pass or a copy.
pub struct Heard;

impl Join<View> for Heard {
    ghost use Rattle.strip_book.specs.Rule.{spent_view};
    ghost use Rattle.strip_book.specs.Steps.{heard_from};

    ghost both = { heard_from };

    ghost spent = { spent_view };
}
