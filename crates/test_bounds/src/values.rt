// Values of a group and its newcomers, for lists that may break the limits.
ghost use Rattle.std.specs.Prelude.{◌≡◌, ℕ, ◌<◌, ◌≤◌, All, IsTrue, false, sum, true};
ghost use Rattle.strip_mask.specs.Set.{has};

use std::alloc::Global;
use strip_arrivals::{ArrivalsTable, Room};
use strip_io::Memory;
use strip_mask::Mask;

/// Returns the value of the group and its newcomers on the set, if the film, the group and the newcomers keep the
/// limits.
pub(crate) fn value_of(
    alloc: Global,
    casts: &[u64],
    days: &[u64],
    holds: &[u64],
    set: Mask,
    group: Mask,
    newcomers: Mask,
) -> Result<Option<u64>, Memory> {
    if casts.len() > 64 || days.len() != casts.len() || holds.len() > 64 {
        return Ok(None);
    }
    if !is_within(days, 19_800) || !is_within(holds, 64_000_000_000) {
        return Ok(None);
    }
    if !have_days(days) {
        return Ok(None);
    }
    let actors = holds.len() as u32;
    if group.size() > 10 || newcomers.size() > 2 || !are_apart(group, newcomers) {
        return Ok(None);
    }
    if !group.lies_below(actors) || !newcomers.lies_below(actors) {
        return Ok(None);
    }
    let table = ArrivalsTable::of(alloc, casts, days, holds)?;
    let mut room = Room::new();
    Ok(Some(table.value(set, group, newcomers, &mut room)))
}

/// Tells whether no actor is in both sets.
fn are_apart(group: Mask, newcomers: Mask) -> bool
    ensures { IsTrue result → (actor : ℕ) → has newcomers.0 actor ≡ true → has group.0 actor ≡ false }
{
    group.meet(newcomers).is_empty()
}

/// Tells whether each scene has days.
fn have_days(days: &[u64]) -> bool
    ensures { IsTrue result → All (λ count. 0 < count) days.now }
{
    days.iter().all(|count| *count > 0)
}

/// Tells whether the sum of the numbers is at most `most`.
fn is_within(numbers: &[u64], most: u64) -> bool
    ensures { IsTrue result → sum numbers.now ≤ most }
{
    let mut left = most;
    for place in 0..numbers.len() {
        if numbers[place] > left {
            return false;
        }
        left -= numbers[place];
    }
    true
}
