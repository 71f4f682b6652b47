//! The law of a group's extra: a function that does nothing when it runs, with a theorem as its contract.
ghost use Rattle.std.specs.Prelude.{◌≡◌, ℕ, ◌≤◌};
ghost use Rattle.strip_mask.specs.Set.{IsSet};
ghost use Rattle.strip_group.specs.Group.{GroupData, IsExtra, group_extra};

/// The extra of a group is the least pay for waiting over all orders in which its actors can leave. Its definition, by
/// the actor who leaves last, has this minimum.
pub fn the_extra_is_the_least()
    ensures { (film : GroupData) (set group : ℕ) → IsSet group → IsExtra film set group (group_extra film set group) }
{}
