// The invariant of the words, and the kinds of steps on them.
ghost use Rattle.std.specs.Prelude.{◌≡◌, min};

use crate::course::Course;
use crate::view::View;
use atomic_table::{Join, Play, Split, TableRule};

/// The invariant of the words and of the knowledge of all passes, which every step keeps.
pub struct Rule;

impl TableRule<(), View, Course> for Rule {
    ghost use Rattle.strip_least.specs.Rule.{IsKept, first_view};

    ghost holds = { λ course state. IsKept course state };

    ghost first = { first_view };
}

/// The step that reads the least cost.
pub struct Look;

impl Play<(), View> for Look {
    ghost use Rattle.strip_least.specs.Steps.{HasLooked};

    ghost then = { λ step before found after. HasLooked before.0 found after.0 × (after.1 ≡ before.1) };
}

/// The step that lowers the least cost to the pay of a path.
pub struct Offer;

impl Play<(), View> for Offer {
    ghost use Rattle.strip_least.specs.Steps.{HasOffered};

    ghost then = { λ step before found after. HasOffered step.first before.0 (min found step.first) after.0 × (after.1 ≡ before.1) };
}

/// The step that takes the next part.
pub struct Draw;

impl Play<(), View> for Draw {
    ghost use Rattle.strip_least.specs.Steps.{HasDrawn};

    ghost then = { λ step before found after. HasDrawn before.0 found after.0 × (after.1 ≡ before.1) };
}

/// The read by which a pass learns that no part occurs twice among its claims.
pub struct Count;

impl Play<(), View> for Count {
    ghost use Rattle.strip_least.specs.Steps.{HasCounted};

    ghost then = { λ step before found after. HasCounted before.0 after.0 × (after.1 ≡ before.1) };
}

/// The read of the least cost by which a pass of full weight learns that no offer and no claim is missing.
pub struct Settle;

impl Play<(), View> for Settle {
    ghost use Rattle.strip_least.specs.Steps.{HasSettled};

    ghost then = { λ step before found after. HasSettled before.0 found after.0 × (after.1 ≡ before.1) };
}

/// The split of a pass: a new one gets a weight of 1.
pub struct Cut;

impl Split<View> for Cut {
    ghost use Rattle.strip_least.specs.Steps.{lightened, split_off};

    ghost left = { lightened };

    ghost right = { split_off };
}

/// The join of a pass into another.
pub struct Merge;

impl Join<View> for Merge {
    ghost use Rattle.strip_least.specs.Steps.{joined, spent_view};

    ghost both = { joined };

    ghost spent = { spent_view };
}
