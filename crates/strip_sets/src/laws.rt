//! Laws of passes and subset sums: functions that do nothing when they run, with theorems as contracts.
ghost use Rattle.strip_sets.specs.Laws.{MoreInEachAbove, OneMost};

/// The contract of a pass determines its result.
pub fn a_pass_has_one_result()
    ensures { OneMost }
{}

/// A number that is added at a set is added to the sum of each of its supersets.
pub fn sums_below_have_what_is_added()
    ensures { MoreInEachAbove }
{}
