//! Laws of values: functions that do nothing when they run, with theorems as contracts.
ghost use Rattle.std.specs.Prelude.{◌≡◌, ℕ, ◌+◌, ◌≤◌, true, false, List};
ghost use Rattle.strip_mask.specs.Set.{IsSet, has, union};
ghost use Rattle.strip_group.specs.Group.{GroupData, group_extra};
ghost use Rattle.strip_arrivals.specs.Along.{HasEach, waiting};
ghost use Rattle.strip_arrivals.specs.Arrivals.{IsLeastTotal, arrivals_value, at_first};

/// The value is a lower bound: along every list of the set's scenes, the group and its newcomers are paid no less for
/// waiting. It holds for any number of newcomers outside the group.
pub fn value_is_at_most_waiting()
    ensures { (film : GroupData) (set group newcomers : ℕ) (scenes : List ℕ) → IsSet set → IsSet group → IsSet newcomers
        → ((actor : ℕ) → has newcomers actor ≡ true → has group actor ≡ false) → HasEach set scenes
        → arrivals_value film set group newcomers ≤ waiting film group newcomers scenes }
{}

/// Without newcomers, the value is the extra of the group.
pub fn value_of_leaving_alone()
    ensures { (film : GroupData) (set group : ℕ) → IsSet group
        → arrivals_value film set group 0 ≡ group_extra film set group }
{}

/// The value is the least total of all runs: some run has it, and none has less.
pub fn value_is_the_least_total()
    ensures { (film : GroupData) (set group newcomers : ℕ) → IsSet group → IsSet newcomers
        → IsLeastTotal film set group (at_first newcomers) (arrivals_value film set group newcomers) }
{}

/// What two parties without a common actor are paid for waiting adds up.
pub fn waiting_adds_up()
    ensures { (film : GroupData) (group other newcomers others : ℕ) (scenes : List ℕ)
        → ((actor : ℕ) → has (union group newcomers) actor ≡ true → has (union other others) actor ≡ false)
        → waiting film (union group other) (union newcomers others) scenes
        ≡ waiting film group newcomers scenes + waiting film other others scenes }
{}

/// The value does not rise if some newcomers are left out.
pub fn fewer_newcomers_wait_no_more()
    ensures { (film : GroupData) (set group newcomers fewer : ℕ) → IsSet group → IsSet newcomers
        → ((actor : ℕ) → has fewer actor ≡ true → has newcomers actor ≡ true)
        → arrivals_value film set group fewer ≤ arrivals_value film set group newcomers }
{}
