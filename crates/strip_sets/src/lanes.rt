// The four sets of two places in the lanes of a vector, raised from one another.
ghost use Rattle.std.specs.Prelude.{◌≡◌, ℕ, ◌+◌, ◌*◌, ◌-◌, ◌^◌, ◌<◌, ◌≤◌, ◌%◌, IsTrue, List, [], ◌∷◌, max, slice_index};
ghost use Rattle.strip_mask.specs.Set.{full};
ghost use Rattle.strip_sets.specs.Numbers.{AreLanes, CanStep, HasLanes, RaisedByFirst, RaisedBySecond, by_class, counted, step_by, step_from, step_to, sum_within};
ghost use Rattle.strip_sets.specs.Saving.{Saves, SavingRoom, owes, owes_from};

use super::terms::{Classes, Count};
use std::simd::prelude::*;

impl Classes<&[u32; 4]> {
    #[inline(always)]
    pub(crate) fn lanes(self) -> Classes<u32x4>
        ensures lanes { HasLanes result }
        ensures same { (class lane : ℕ) → by_class slice_index result class lane
            ≡ by_class (λ s. slice_index s.now) self.entry class lane }
    {
        Classes {
            first: vector(self.first),
            second: vector(self.second),
        }
    }
}

/// Loads four numbers as a vector, in one access even if the lanes are moved afterwards.
#[inline(always)]
pub(crate) fn vector(numbers: &[u32; 4]) -> u32x4
    ensures lanes { AreLanes result }
    ensures same { result ≡ numbers.now }
{
    u32x4::from_slice(numbers)
}

/// Returns, for each of the four sets of two places, the sum of the numbers of its subsets.
#[inline(always)]
pub(crate) fn below_two(numbers: u32x4) -> u32x4
    requires lanes { AreLanes numbers }
    requires fits { sum_within 2 (slice_index numbers) (full 2) < 2 ^ 32 }
    ensures lanes { AreLanes result }
    ensures each { (set : ℕ) → set < 4 → slice_index result set ≡ sum_within 2 (slice_index numbers) set }
{
    let with_first = numbers.strict_add(without_first(numbers));
    with_first.strict_add(without_second(with_first))
}

/// Returns, for each set with the first place, the number of the set without it, and 0 for the others.
#[inline(always)]
fn without_first(numbers: u32x4) -> u32x4
    requires { AreLanes numbers }
    ensures { result ≡ 0 ∷ slice_index numbers 0 ∷ 0 ∷ slice_index numbers 2 ∷ [] }
{
    numbers.shuffle(u32x4::splat(0), [4, 0, 4, 2])
}

/// Returns, for each set with the second place, the number of the set without it, and 0 for the others.
#[inline(always)]
fn without_second(numbers: u32x4) -> u32x4
    requires { AreLanes numbers }
    ensures { result ≡ 0 ∷ 0 ∷ slice_index numbers 0 ∷ slice_index numbers 1 ∷ [] }
{
    numbers.shuffle(u32x4::splat(0), [4, 4, 0, 1])
}

/// Returns the lowest 32 bits of a rate: the whole rate, unless it is paid on no day.
#[inline(always)]
pub(crate) fn low_bits(rate: u64) -> u32
    ensures { result ≡ rate % 2 ^ 32 }
{
    (rate % (1 << 32)) as u32
}

/// Raises each lane to the other's, with what is saved, less what is owed.
#[inline(always)]
pub(crate) fn raise(numbers: u32x4, others: u32x4, saved: u32x4, owed: u32x4) -> u32x4
    requires lanes { AreLanes numbers × AreLanes others × AreLanes saved × AreLanes owed }
    requires fits { (lane : ℕ) → lane < 4 → slice_index others lane + slice_index saved lane < 2 ^ 32 }
    requires covered { (lane : ℕ) → lane < 4 → slice_index owed lane ≤ slice_index others lane }
    ensures lanes { AreLanes result }
    ensures each { (lane : ℕ) → lane < 4 → slice_index result lane ≡ max (slice_index numbers lane)
        (slice_index others lane + slice_index saved lane - slice_index owed lane) }
{
    numbers.simd_max(others.strict_add(saved).strict_sub(owed))
}

/// Returns, in each lane, what the classes owe for the days that come with the step.
#[inline(always)]
pub(crate) fn owed_from<C: Count>(
    extras: Classes<u32x4>,
    days: Classes<u32x4>,
    before: Classes<u32x4>,
) -> u32x4
    requires classes { C.COUNT ≤ 2 }
    requires vectors { HasLanes extras × HasLanes days × HasLanes before }
    requires rise { (class lane : ℕ) → class < C.COUNT → lane < 4
        → by_class slice_index before class lane ≤ by_class slice_index days class lane }
    requires fits { (lane : ℕ) → lane < 4 → owes_from C.COUNT (by_class slice_index extras)
        (by_class slice_index days) (by_class slice_index before) lane < 2 ^ 32 }
    ensures lanes { AreLanes result }
    ensures each { (lane : ℕ) → lane < 4 → slice_index result lane
        ≡ owes_from C.COUNT (by_class slice_index extras) (by_class slice_index days)
        (by_class slice_index before) lane }
{
    let sum = u32x4::splat(0);
    let sum = plus_owed(sum, C::COUNT > 0, extras.first, days.first, before.first);
    plus_owed(sum, C::COUNT > 1, extras.second, days.second, before.second)
}

/// Adds to each lane what one class owes for the days that come with the step, if the class counts.
#[inline(always)]
fn plus_owed(sum: u32x4, counts: bool, extras: u32x4, days: u32x4, before: u32x4) -> u32x4
    requires lanes { AreLanes sum × AreLanes extras × AreLanes days × AreLanes before }
    requires rise { (lane : ℕ) → lane < 4 → IsTrue counts → slice_index before lane ≤ slice_index days lane }
    requires fits { (lane : ℕ) → lane < 4 → slice_index sum lane
        + counted counts (slice_index extras lane * (slice_index days lane - slice_index before lane)) < 2 ^ 32 }
    ensures lanes { AreLanes result }
    ensures each { (lane : ℕ) → lane < 4 → slice_index result lane ≡ slice_index sum lane
        + counted counts (slice_index extras lane * (slice_index days lane - slice_index before lane)) }
{
    if counts {
        sum.strict_add(extras.strict_mul(days.strict_sub(before)))
    } else {
        sum
    }
}

/// Returns the numbers of the sets that the four steps lead to: from the second place to both, from none to the first
/// and to the second, and from the first to both.
#[inline(always)]
fn at_ends(lanes: u32x4) -> u32x4
    requires { AreLanes lanes }
    ensures lanes { AreLanes result }
    ensures each { (step : ℕ) → step < 4 → slice_index result step ≡ slice_index lanes (slice_index step_to step) }
{
    lanes.swizzle([3, 1, 2, 3])
}

/// Returns the numbers of the sets that the four steps come from.
#[inline(always)]
fn at_starts(lanes: u32x4) -> u32x4
    requires { AreLanes lanes }
    ensures lanes { AreLanes result }
    ensures each { (step : ℕ) → step < 4 → slice_index result step ≡ slice_index lanes (slice_index step_from step) }
{
    lanes.swizzle([2, 0, 0, 1])
}

/// Returns, for each class, the numbers of the sets that the steps lead to.
#[inline(always)]
fn all_at_ends(classes: Classes<u32x4>) -> Classes<u32x4>
    requires { HasLanes classes }
    ensures lanes { HasLanes result }
    ensures each { (class step : ℕ) → step < 4 → by_class slice_index result class step
        ≡ by_class slice_index classes class (slice_index step_to step) }
{
    Classes {
        first: at_ends(classes.first),
        second: at_ends(classes.second),
    }
}

/// Returns, for each class, the numbers of the sets that the steps come from.
#[inline(always)]
fn all_at_starts(classes: Classes<u32x4>) -> Classes<u32x4>
    requires { HasLanes classes }
    ensures lanes { HasLanes result }
    ensures each { (class step : ℕ) → step < 4 → by_class slice_index result class step
        ≡ by_class slice_index classes class (slice_index step_from step) }
{
    Classes {
        first: at_starts(classes.first),
        second: at_starts(classes.second),
    }
}

/// Returns what each of the four steps saves: the hold rate of its place on the days before it.
#[inline(always)]
fn step_savings(first: u64, second: u64, days: u32x4) -> u32x4
    requires lanes { AreLanes days }
    requires fits { (step : ℕ) → step < 4 → slice_index (first ∷ second ∷ []) (slice_index step_by step)
        * slice_index days (slice_index step_from step) < 2 ^ 32 }
    ensures lanes { AreLanes result }
    ensures each { (step : ℕ) → step < 4 → slice_index result step
        ≡ slice_index (first ∷ second ∷ []) (slice_index step_by step) * slice_index days (slice_index step_from step) }
{
    let (first, second) = (low_bits(first), low_bits(second));
    let holds = u32x4::from_array([first, first, second, second]);
    holds.strict_mul(at_starts(days))
}

/// Returns what each of the four steps owes.
#[inline(always)]
fn step_debts<C: Count>(extras: Classes<u32x4>, days: Classes<u32x4>) -> u32x4
    requires classes { C.COUNT ≤ 2 }
    requires vectors { HasLanes extras × HasLanes days }
    requires rise { (class step : ℕ) → class < C.COUNT → step < 4
        → by_class slice_index days class (slice_index step_from step)
        ≤ by_class slice_index days class (slice_index step_to step) }
    requires fits { (step : ℕ) → step < 4 → owes C.COUNT (by_class slice_index extras) (by_class slice_index days)
        (slice_index step_to step) (slice_index step_from step) < 2 ^ 32 }
    ensures lanes { AreLanes result }
    ensures each { (step : ℕ) → step < 4 → slice_index result step
        ≡ owes C.COUNT (by_class slice_index extras) (by_class slice_index days) (slice_index step_to step)
        (slice_index step_from step) }
{
    let (there, from) = (all_at_ends(days), all_at_starts(days));
    owed_from::<C>(all_at_ends(extras), there, from)
}

/// Returns the numbers of the steps by the first place at the sets with it, and 0 at the others.
#[inline(always)]
fn of_first(steps: u32x4) -> u32x4
    requires { AreLanes steps }
    ensures { result ≡ 0 ∷ slice_index steps 1 ∷ 0 ∷ slice_index steps 0 ∷ [] }
{
    steps.shuffle(u32x4::splat(0), [4, 1, 4, 0])
}

/// Returns the numbers of the steps by the second place at the sets with it, and 0 at the others.
#[inline(always)]
fn of_second(steps: u32x4) -> u32x4
    requires { AreLanes steps }
    ensures { result ≡ 0 ∷ 0 ∷ slice_index steps 2 ∷ slice_index steps 3 ∷ [] }
{
    steps.shuffle(u32x4::splat(0), [4, 4, 2, 3])
}

/// Returns, at each set, the number of the set without the first place.
#[inline(always)]
fn lacking_first(numbers: u32x4) -> u32x4
    requires { AreLanes numbers }
    ensures { result ≡ slice_index numbers 0 ∷ slice_index numbers 0 ∷ slice_index numbers 2 ∷ slice_index numbers 2 ∷ [] }
{
    numbers.swizzle([0, 0, 2, 2])
}

/// Returns, at each set, the number of the set without the second place.
#[inline(always)]
fn lacking_second(numbers: u32x4) -> u32x4
    requires { AreLanes numbers }
    ensures { result ≡ slice_index numbers 0 ∷ slice_index numbers 1 ∷ slice_index numbers 0 ∷ slice_index numbers 1 ∷ [] }
{
    numbers.swizzle([0, 1, 0, 1])
}

/// Raises the sets with the first place from those without it.
#[inline(always)]
fn raise_by_first(numbers: u32x4, saved: u32x4, owed: u32x4) -> u32x4
    requires { CanStep numbers saved owed }
    ensures { RaisedByFirst numbers saved owed result }
{
    raise(
        numbers,
        lacking_first(numbers),
        of_first(saved),
        of_first(owed),
    )
}

/// Raises the sets with the second place from those without it.
#[inline(always)]
fn raise_by_second(numbers: u32x4, saved: u32x4, owed: u32x4) -> u32x4
    requires { CanStep numbers saved owed }
    ensures { RaisedBySecond numbers saved owed result }
{
    raise(
        numbers,
        lacking_second(numbers),
        of_second(saved),
        of_second(owed),
    )
}

/// Raises the numbers of the four sets of two places to the most that is saved on a way to each.
#[inline(always)]
pub(crate) fn pass_two<C: Count>(
    numbers: u32x4,
    holds: &[u64; 10],
    days: u32x4,
    extras: Classes<u32x4>,
    owed: Classes<u32x4>,
) -> u32x4
    requires classes { C.COUNT ≤ 2 }
    requires lanes { AreLanes numbers × AreLanes days }
    requires vectors { HasLanes extras × HasLanes owed }
    requires room { SavingRoom 2 C.COUNT (2 ^ 32 - 1) holds.now (slice_index days) (by_class slice_index extras)
        (by_class slice_index owed) (slice_index numbers) }
    ensures lanes { AreLanes result }
    ensures saves { Saves 2 (slice_index holds.now) (slice_index days) (owes C.COUNT (by_class slice_index extras)
        (by_class slice_index owed)) (slice_index numbers) (slice_index result) }
{
    let saved = step_savings(holds[0], holds[1], days);
    let debts = step_debts::<C>(extras, owed);
    let one = raise_by_first(numbers, saved, debts);
    let after = raise_by_second(one, saved, debts);
    raise_by_first(after, saved, debts)
}
