//! Operations on tables as slices of blocks. A table has a number for each set of a block's places and `higher` more:
//! 2 ^ `higher` blocks.
ghost use Rattle.std.specs.Prelude.{◌≡◌, ℕ, ◌+◌, ◌*◌, ◌-◌, ◌^◌, ◌<◌, ◌≤◌, ◌==◌, cond, max, min, length, slice_index};
ghost use Rattle.strip_mask.specs.Set.{full, sum_over};
ghost use Rattle.strip_sets.specs.Numbers.{by_class, counted, in_block, number, sum_within};
ghost use Rattle.strip_sets.specs.Saving.{Saves, SavingRoom, owes, owes_from};

use super::by_set::BySet;
use super::terms::{Classes, Count};

impl<'a, B: BySet> Classes<&'a [B]> {
    /// Returns the block at this index.
    #[inline(always)]
    fn block(self, index: usize) -> Classes<&'a B>
        requires { (index < length self.first.now) × (index < length self.second.now) }
        ensures { (class set : ℕ) → by_class (λ s. B.value s.now) result class set
            ≡ by_class (λ s. in_block B.value s.now index) self.entry class set }
    {
        Classes {
            first: &self.first[index],
            second: &self.second[index],
        }
    }

    /// Returns the blocks before this one.
    #[inline(always)]
    fn low(self, half: usize) -> Classes<&'a [B]>
        requires { (half ≤ length self.first.now) × (half ≤ length self.second.now) }
        ensures lengths { (length result.first.now ≡ half) × (length result.second.now ≡ half) }
        ensures same { (class set : ℕ) → set < half * 2 ^ B.places
            → by_class (λ s. number B.value B.places s.now) result class set
            ≡ by_class (λ s. number B.value B.places s.now) self.entry class set }
    {
        Classes {
            first: &self.first[..half],
            second: &self.second[..half],
        }
    }

    /// Returns the blocks from this one on.
    #[inline(always)]
    fn high(self, half: usize) -> Classes<&'a [B]>
        requires { (half ≤ length self.first.now) × (half ≤ length self.second.now) }
        ensures lengths { (length result.first.now + half ≡ length self.entry.first.now)
            × (length result.second.now + half ≡ length self.entry.second.now) }
        ensures same { (class set : ℕ) → by_class (λ s. number B.value B.places s.now) result class set
            ≡ by_class (λ s. number B.value B.places s.now) self.entry class (half * 2 ^ B.places + set) }
    {
        Classes {
            first: &self.first[half..],
            second: &self.second[half..],
        }
    }
}

/// Returns the number of a set.
pub fn at<B: BySet>(table: &[B], set: usize) -> u64
    requires few { B.places ≤ 10 }
    requires known { set < length table.now * 2 ^ B.places }
    ensures { result ≡ number B.value B.places table.now set }
{
    let sets = 1 << B::places();
    table[set / sets].at(set % sets)
}

/// Adds to the number of one set.
pub fn add<B: BySet>(table: &mut [B], set: usize, more: u64)
    requires few { B.places ≤ 10 }
    requires known { set < length table.old * 2 ^ B.places }
    requires fits { number B.value B.places table.old set + more ≤ B.most }
    ensures length { length table.new ≡ length table.old }
    ensures each { (other : ℕ) → other < length table.old * 2 ^ B.places → number B.value B.places table.new other
        ≡ number B.value B.places table.old other + counted (other == set) more }
{
    let sets = 1 << B::places();
    table[set / sets].add(set % sets, more);
}

/// Sets the number of the empty set, and another one for each other set.
#[inline(never)]
pub fn start<B: BySet>(table: &mut [B], none: u64, others: u64)
    requires some { 0 < length table.old }
    requires none { none ≤ B.most }
    requires others { others ≤ B.most }
    ensures length { length table.new ≡ length table.old }
    ensures each { (set : ℕ) → set < length table.old * 2 ^ B.places
        → number B.value B.places table.new set ≡ cond {A = ℕ} (set == 0) none others }
{
    for block in 0..table.len() {
        table[block] = B::all(others);
    }
    table[0] = B::none_and_others(none, others);
}

/// Copies the numbers of another table.
#[inline(never)]
pub fn copy<B: BySet>(table: &mut [B], others: &[B])
    requires same { length others.now ≡ length table.old }
    ensures length { length table.new ≡ length table.old }
    ensures each { (set : ℕ) → set < length table.old * 2 ^ B.places
        → number B.value B.places table.new set ≡ number B.value B.places others.now set }
{
    for block in 0..table.len() {
        table[block].copy_from(&others[block]);
    }
}

/// Sets each number to that of the other table and `more`.
#[inline(never)]
fn more_than<B: BySet>(table: &mut [B], others: &[B], more: u64)
    requires same { length others.now ≡ length table.old }
    requires fits { (set : ℕ) → set < length table.old * 2 ^ B.places
        → number B.value B.places others.now set + more ≤ B.most }
    ensures length { length table.new ≡ length table.old }
    ensures each { (set : ℕ) → set < length table.old * 2 ^ B.places
        → number B.value B.places table.new set ≡ number B.value B.places others.now set + more }
{
    for block in 0..table.len() {
        table[block].more_than(&others[block], more);
    }
}

/// Adds the numbers of another table.
#[inline(never)]
pub fn plus<B: BySet>(table: &mut [B], others: &[B])
    requires same { length others.now ≡ length table.old }
    requires fits { (set : ℕ) → set < length table.old * 2 ^ B.places
        → number B.value B.places table.old set + number B.value B.places others.now set ≤ B.most }
    ensures length { length table.new ≡ length table.old }
    ensures each { (set : ℕ) → set < length table.old * 2 ^ B.places → number B.value B.places table.new set
        ≡ number B.value B.places table.old set + number B.value B.places others.now set }
{
    for block in 0..table.len() {
        table[block].plus(&others[block]);
    }
}

/// Limits each number to this one.
#[inline(never)]
pub fn at_most<B: BySet>(table: &mut [B], limit: u64)
    requires { limit ≤ B.most }
    ensures length { length table.new ≡ length table.old }
    ensures each { (set : ℕ) → set < length table.old * 2 ^ B.places
        → number B.value B.places table.new set ≡ min (number B.value B.places table.old set) limit }
{
    for block in 0..table.len() {
        table[block].at_most(limit);
    }
}

/// Sets each number to that of the other table and `more`, at most the limit of the set.
#[inline(never)]
pub fn more_at_most<B: BySet>(table: &mut [B], others: &[B], more: u64, limits: &[B])
    requires same { (length others.now ≡ length table.old) × (length limits.now ≡ length table.old) }
    requires fits { (set : ℕ) → set < length table.old * 2 ^ B.places
        → number B.value B.places others.now set + more ≤ B.most }
    ensures length { length table.new ≡ length table.old }
    ensures each { (set : ℕ) → set < length table.old * 2 ^ B.places → number B.value B.places table.new set
        ≡ min (number B.value B.places others.now set + more) (number B.value B.places limits.now set) }
{
    for block in 0..table.len() {
        table[block].more_at_most(&others[block], more, &limits[block]);
    }
}

/// Raises each number to that of the other table, with the rate for each of the paid days, less the set's extra for each
/// of the owed days.
#[inline(never)]
pub fn greater_with<B: BySet>(
    table: &mut [B],
    others: &[B],
    rate: u64,
    paid: &[B],
    extras: &[B],
    owed: &[B],
)
    requires same { (length others.now ≡ length table.old) × (length paid.now ≡ length table.old)
        × (length extras.now ≡ length table.old) × (length owed.now ≡ length table.old) }
    requires fits { (set : ℕ) → set < length table.old * 2 ^ B.places
        → number B.value B.places others.now set + rate * number B.value B.places paid.now set ≤ B.most }
    requires covered { (set : ℕ) → set < length table.old * 2 ^ B.places
        → number B.value B.places extras.now set * number B.value B.places owed.now set
        ≤ number B.value B.places others.now set }
    ensures length { length table.new ≡ length table.old }
    ensures each { (set : ℕ) → set < length table.old * 2 ^ B.places → number B.value B.places table.new set
        ≡ max (number B.value B.places table.old set) (number B.value B.places others.now set
        + rate * number B.value B.places paid.now set
        - number B.value B.places extras.now set * number B.value B.places owed.now set) }
{
    for block in 0..table.len() {
        table[block].greater_with(
            &others[block],
            rate,
            &paid[block],
            &extras[block],
            &owed[block],
        );
    }
}

/// Sets each number to `first` and the sum of the numbers of the places that are not in the set.
#[inline(never)]
pub fn other_sums<B: BySet>(table: &mut [B], higher: usize, first: u64, numbers: &[u64; 10])
    requires few { higher + B.places ≤ 10 }
    requires sized { length table.old ≡ 2 ^ higher }
    requires fits { first + sum_over numbers.now (full (higher + B.places)) ≤ B.most }
    ensures length { length table.new ≡ length table.old }
    ensures each { (set : ℕ) → set < 2 ^ (higher + B.places)
        → number B.value B.places table.new set + sum_over numbers.now set ≡ first
        + sum_over numbers.now (full (higher + B.places)) }
{
    if higher == 0 {
        table[0].other_sums(first, numbers);
        return;
    }
    let half = table.len() / 2;
    let (low, high) = table.split_at_mut(half);
    other_sums(high, higher - 1, first, numbers);
    more_than(low, high, numbers[B::places() + higher - 1]);
}

/// Sets each number to the sum of the numbers of the set's subsets.
#[inline(never)]
pub fn below<B: BySet>(table: &mut [B], higher: usize)
    requires sized { length table.old ≡ 2 ^ higher }
    requires fits { sum_within (higher + B.places) (number B.value B.places table.old) (full (higher + B.places))
        ≤ B.most }
    ensures length { length table.new ≡ length table.old }
    ensures each { (set : ℕ) → set < 2 ^ (higher + B.places) → number B.value B.places table.new set
        ≡ sum_within (higher + B.places) (number B.value B.places table.old) set }
{
    if higher == 0 {
        table[0].below();
        return;
    }
    let half = table.len() / 2;
    let (low, high) = table.split_at_mut(half);
    below(low, higher - 1);
    below(high, higher - 1);
    plus(high, low);
}

/// Raises each number by a step from that of the other table, the sets without a place of this hold rate. The step
/// saves the hold rate on all days before it, and owes each class its extra for each day that comes with it.
#[inline(never)]
fn or_saved<B: BySet, C: Count>(
    table: &mut [B],
    others: &[B],
    hold: u64,
    days_before: &[B],
    extras: Classes<&[B]>,
    owed: Classes<&[B]>,
    owed_before: Classes<&[B]>,
)
    requires classes { C.COUNT ≤ 2 }
    requires same { (length others.now ≡ length table.old) × (length days_before.now ≡ length table.old)
        × (length extras.first.now ≡ length table.old) × (length extras.second.now ≡ length table.old)
        × (length owed.first.now ≡ length table.old) × (length owed.second.now ≡ length table.old)
        × (length owed_before.first.now ≡ length table.old) × (length owed_before.second.now ≡ length table.old) }
    requires rise { (class set : ℕ) → class < C.COUNT → set < length table.old * 2 ^ B.places
        → by_class (λ s. number B.value B.places s.now) owed_before class set
        ≤ by_class (λ s. number B.value B.places s.now) owed class set }
    requires fits { (set : ℕ) → set < length table.old * 2 ^ B.places
        → number B.value B.places others.now set + hold * number B.value B.places days_before.now set ≤ B.most }
    requires covered { (set : ℕ) → set < length table.old * 2 ^ B.places
        → owes_from C.COUNT (by_class (λ s. number B.value B.places s.now) extras)
        (by_class (λ s. number B.value B.places s.now) owed)
        (by_class (λ s. number B.value B.places s.now) owed_before) set ≤ number B.value B.places others.now set }
    ensures length { length table.new ≡ length table.old }
    ensures each { (set : ℕ) → set < length table.old * 2 ^ B.places → number B.value B.places table.new set
        ≡ max (number B.value B.places table.old set) (number B.value B.places others.now set
        + hold * number B.value B.places days_before.now set
        - owes_from C.COUNT (by_class (λ s. number B.value B.places s.now) extras.entry)
        (by_class (λ s. number B.value B.places s.now) owed.entry)
        (by_class (λ s. number B.value B.places s.now) owed_before.entry) set) }
{
    for block in 0..table.len() {
        table[block].or_saved::<C>(
            &others[block],
            hold,
            &days_before[block],
            extras.block(block),
            owed.block(block),
            owed_before.block(block),
        );
    }
}

/// Raises each number to the most that is saved on a way to the set, place after place in any order. A step saves the
/// hold rate of its place on all days before it, and owes each class its extra, at the set that the step leads to, for
/// each day that comes with it. Time is linear in the number of sets times places; it works in place.
#[inline(never)]
pub fn pass<B: BySet, C: Count>(
    table: &mut [B],
    higher: usize,
    holds: &[u64; 10],
    days: &[B],
    extras: Classes<&[B]>,
    owed: Classes<&[B]>,
)
    requires few { higher + B.places ≤ 10 }
    requires classes { C.COUNT ≤ 2 }
    requires sized { (length table.old ≡ 2 ^ higher) × (length days.now ≡ 2 ^ higher)
        × (length extras.first.now ≡ 2 ^ higher) × (length extras.second.now ≡ 2 ^ higher)
        × (length owed.first.now ≡ 2 ^ higher) × (length owed.second.now ≡ 2 ^ higher) }
    requires room { SavingRoom (higher + B.places) C.COUNT B.most holds.now (number B.value B.places days.now)
        (by_class (λ s. number B.value B.places s.now) extras) (by_class (λ s. number B.value B.places s.now) owed)
        (number B.value B.places table.old) }
    ensures length { length table.new ≡ length table.old }
    ensures saves { Saves (higher + B.places) (slice_index holds.now) (number B.value B.places days.now)
        (owes C.COUNT (by_class (λ s. number B.value B.places s.now) extras.entry)
        (by_class (λ s. number B.value B.places s.now) owed.entry)) (number B.value B.places table.old)
        (number B.value B.places table.new) }
{
    if higher == 0 {
        table[0].pass::<C>(holds, &days[0], extras.block(0), owed.block(0));
        return;
    }
    let half = table.len() / 2;
    let (extras_low, extras_high) = (extras.low(half), extras.high(half));
    let (owed_low, owed_high) = (owed.low(half), owed.high(half));
    let (days_low, days_high) = days.split_at(half);
    let (low, high) = table.split_at_mut(half);
    pass::<B, C>(low, higher - 1, holds, days_low, extras_low, owed_low);
    let hold = holds[B::places() + higher - 1];
    or_saved::<B, C>(high, low, hold, days_low, extras_high, owed_high, owed_low);
    pass::<B, C>(high, higher - 1, holds, days_high, extras_high, owed_high);
}
