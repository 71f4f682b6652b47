// Tables with a number for each set of places, by halves.
ghost use Rattle.std.specs.Prelude.{◌≡◌, ℕ, ◌+◌, ◌*◌, ◌-◌, ◌^◌, ◌<◌, ◌≤◌, ◌==◌, cond, max, min, suc, IsTrue, slice_index};
ghost use Rattle.std.proofs.Common.{rules};
ghost use Rattle.strip_mask.specs.Set.{full, sum_over, with};
ghost use Rattle.strip_sets.specs.Numbers.{by_class, counted, halves, sum_within};
ghost use Rattle.strip_sets.specs.Saving.{Saves, SavingRoom, owes, owes_from};

use super::lanes::{below_two, low_bits, owed_from, pass_two, raise, vector};
use super::terms::{Classes, Count};
use std::simd::prelude::*;

/// A table with a number for each set of the first few places. Bit i of a set is place i.
pub trait BySet: Sized + Drop {
    /// Number of places.
    ghost places: { ℕ };

    /// The greatest number that fits in an entry.
    ghost most: { ℕ };

    /// The number of a set.
    ghost value: { Self → ℕ → ℕ };

    /// Returns the number of places.
    fn places() -> usize
        requires { places ≤ 10 }
        ensures { result ≡ places };

    /// Makes a table with the same number for each set.
    fn all(number: u64) -> Self
        requires { number ≤ most }
        ensures { (set : ℕ) → set < 2 ^ places → value result set ≡ number };

    /// Makes a table with one number for the empty set, and another for each other set.
    fn none_and_others(none: u64, others: u64) -> Self
        requires none { none ≤ most }
        requires others { others ≤ most }
        ensures { (set : ℕ) → set < 2 ^ places → value result set ≡ cond {A = ℕ} (set == 0) none others };

    /// Returns the number of a set.
    fn at(&self, set: usize) -> u64
        requires few { places ≤ 10 }
        requires known { set < 2 ^ places }
        ensures { result ≡ value self.now set };

    /// Sets each number to `first` and the sum of the numbers of the places that are not in the set.
    fn other_sums(&mut self, first: u64, numbers: &[u64; 10])
        requires few { places ≤ 10 }
        requires fits { first + sum_over numbers.now (full places) ≤ most }
        ensures { (set : ℕ) → set < 2 ^ places → value self.new set + sum_over numbers.now set ≡ first
            + sum_over numbers.now (full places) };

    /// Adds to the number of one set.
    fn add(&mut self, set: usize, number: u64)
        requires few { places ≤ 10 }
        requires known { set < 2 ^ places }
        requires fits { value self.old set + number ≤ most }
        ensures { (other : ℕ) → other < 2 ^ places
            → value self.new other ≡ value self.old other + counted (other == set) number };

    /// Sets each number to the sum of the numbers of the set's subsets.
    fn below(&mut self)
        requires { sum_within places (value self.old) (full places) ≤ most }
        ensures { (set : ℕ) → set < 2 ^ places → value self.new set ≡ sum_within places (value self.old) set };

    /// Copies the numbers of another table.
    fn copy_from(&mut self, others: &Self)
        ensures { (set : ℕ) → set < 2 ^ places → value self.new set ≡ value others.now set };

    /// Sets each number to that of the other table and `number`.
    fn more_than(&mut self, others: &Self, number: u64)
        requires { (set : ℕ) → set < 2 ^ places → value others.now set + number ≤ most }
        ensures { (set : ℕ) → set < 2 ^ places → value self.new set ≡ value others.now set + number };

    /// Adds the numbers of another table.
    fn plus(&mut self, others: &Self)
        requires { (set : ℕ) → set < 2 ^ places → value self.old set + value others.now set ≤ most }
        ensures { (set : ℕ) → set < 2 ^ places → value self.new set ≡ value self.old set + value others.now set };

    /// Limits each number to this one.
    fn at_most(&mut self, number: u64)
        requires { number ≤ most }
        ensures { (set : ℕ) → set < 2 ^ places → value self.new set ≡ min (value self.old set) number };

    /// Sets each number to that of the other table and `number`, at most the limit of the set.
    fn more_at_most(&mut self, others: &Self, number: u64, limits: &Self)
        requires { (set : ℕ) → set < 2 ^ places → value others.now set + number ≤ most }
        ensures { (set : ℕ) → set < 2 ^ places → value self.new set
            ≡ min (value others.now set + number) (value limits.now set) };

    /// Raises each number to that of the other table, with the rate for each of the paid days, less the set's extra
    /// for each of the owed days.
    fn greater_with(&mut self, others: &Self, rate: u64, paid: &Self, extras: &Self, owed: &Self)
        requires fits { (set : ℕ) → set < 2 ^ places → value others.now set + rate * value paid.now set ≤ most }
        requires covered { (set : ℕ) → set < 2 ^ places → value extras.now set * value owed.now set
            ≤ value others.now set }
        ensures { (set : ℕ) → set < 2 ^ places → value self.new set ≡ max (value self.old set)
            (value others.now set + rate * value paid.now set - value extras.now set * value owed.now set) };

    /// Raises each number by a step from that of the other table, the sets without a place of this hold rate. The step
    /// saves the hold rate on all days before it, and owes each class its extra for each day that comes with it.
    fn or_saved<C: Count>(
        &mut self,
        others: &Self,
        hold: u64,
        days_before: &Self,
        extras: Classes<&Self>,
        owed: Classes<&Self>,
        owed_before: Classes<&Self>,
    )
        requires classes { C.COUNT ≤ 2 }
        requires rise { (class set : ℕ) → class < C.COUNT → set < 2 ^ places
            → by_class (λ s. value s.now) owed_before class set ≤ by_class (λ s. value s.now) owed class set }
        requires fits { (set : ℕ) → set < 2 ^ places
            → value others.now set + hold * value days_before.now set ≤ most }
        requires covered { (set : ℕ) → set < 2 ^ places
            → owes_from C.COUNT (by_class (λ s. value s.now) extras) (by_class (λ s. value s.now) owed)
            (by_class (λ s. value s.now) owed_before) set ≤ value others.now set }
        ensures { (set : ℕ) → set < 2 ^ places → value self.new set ≡ max (value self.old set)
            (value others.now set + hold * value days_before.now set
            - owes_from C.COUNT (by_class (λ s. value s.now) extras.entry) (by_class
            (λ s. value s.now) owed.entry) (by_class (λ s. value s.now) owed_before.entry) set) };

    /// Raises each number to the most that is saved on a way to the set, place after place in any order. A step saves
    /// the hold rate of its place on all days before it, and owes each class its extra, at the set that the step leads
    /// to, for each day that comes with it. Time is linear in the number of sets times places; it works in place.
    fn pass<C: Count>(
        &mut self,
        holds: &[u64; 10],
        days: &Self,
        extras: Classes<&Self>,
        owed: Classes<&Self>,
    )
        requires few { places ≤ 10 }
        requires classes { C.COUNT ≤ 2 }
        requires room { SavingRoom places C.COUNT most holds.now (value days.now) (by_class
            (λ s. value s.now) extras) (by_class (λ s. value s.now) owed) (value self.old) }
        ensures { Saves places (slice_index holds.now) (value days.now) (owes C.COUNT (by_class
            (λ s. value s.now) extras.entry) (by_class (λ s. value s.now) owed.entry)) (value self.old)
            (value self.new) };

    /// Each number fits in 64 bits.
    ghost narrow: { most < 2 ^ 64 };
}

/// A table of no place: one number.
impl BySet for u64 {
    ghost places = { 0 };

    ghost most = { 2 ^ 64 - 1 };

    ghost value = { λ number set. number };

    ghost narrow = { Prim.search rules };

    fn places() -> usize {
        0
    }

    fn all(number: u64) -> u64 {
        number
    }

    fn none_and_others(none: u64, _others: u64) -> u64 {
        none
    }

    fn at(&self, _set: usize) -> u64 {
        *self
    }

    #[inline(always)]
    fn other_sums(&mut self, first: u64, _numbers: &[u64; 10]) {
        *self = first;
    }

    fn add(&mut self, _set: usize, number: u64) {
        *self += number;
    }

    #[inline(always)]
    fn below(&mut self) {}

    #[inline(always)]
    fn copy_from(&mut self, others: &u64) {
        *self = *others;
    }

    #[inline(always)]
    fn more_than(&mut self, others: &u64, number: u64) {
        *self = *others + number;
    }

    #[inline(always)]
    fn plus(&mut self, others: &u64) {
        *self += *others;
    }

    #[inline(always)]
    fn at_most(&mut self, number: u64) {
        *self = (*self).min(number);
    }

    #[inline(always)]
    fn more_at_most(&mut self, others: &u64, number: u64, limits: &u64) {
        *self = (*others + number).min(*limits);
    }

    #[inline(always)]
    fn greater_with(&mut self, others: &u64, rate: u64, paid: &u64, extras: &u64, owed: &u64) {
        *self = (*self).max(*others + rate * *paid - *extras * *owed);
    }

    #[inline(always)]
    fn or_saved<C: Count>(
        &mut self,
        others: &u64,
        hold: u64,
        days_before: &u64,
        extras: Classes<&u64>,
        owed: Classes<&u64>,
        owed_before: Classes<&u64>,
    ) {
        let sum = or_owed(
            0,
            C::COUNT > 0,
            *extras.first,
            *owed.first,
            *owed_before.first,
        );
        let sum = or_owed(
            sum,
            C::COUNT > 1,
            *extras.second,
            *owed.second,
            *owed_before.second,
        );
        *self = (*self).max(*others + hold * *days_before - sum);
    }

    #[inline(always)]
    fn pass<C: Count>(
        &mut self,
        _holds: &[u64; 10],
        _days: &u64,
        _extras: Classes<&u64>,
        _owed: Classes<&u64>,
    ) {}
}

/// Adds an extra for each new day, if the class counts.
#[inline(always)]
fn or_owed(sum: u64, counts: bool, extra: u64, days: u64, before: u64) -> u64
    requires rise { IsTrue counts → before ≤ days }
    requires fits { sum + counted counts (extra * (days - before)) < 2 ^ 64 }
    ensures { result ≡ sum + counted counts (extra * (days - before)) }
{
    if counts {
        sum + extra * (days - before)
    } else {
        sum
    }
}

/// A table of two places: the four sets in a vector.
impl BySet for [u32; 4] {
    ghost places = { 2 };

    ghost most = { 2 ^ 32 - 1 };

    ghost value = { slice_index };

    ghost narrow = { Prim.search rules };

    fn places() -> usize {
        2
    }

    fn all(number: u64) -> [u32; 4] {
        [number as u32; 4]
    }

    fn none_and_others(none: u64, others: u64) -> [u32; 4] {
        let others = others as u32;
        [none as u32, others, others, others]
    }

    fn at(&self, set: usize) -> u64 {
        self[set] as u64
    }

    #[inline(always)]
    fn other_sums(&mut self, first: u64, numbers: &[u64; 10]) {
        let (with_first, with_second) = (first + numbers[1], first + numbers[0]);
        *self = [
            (with_first + numbers[0]) as u32,
            with_first as u32,
            with_second as u32,
            first as u32,
        ];
    }

    fn add(&mut self, set: usize, number: u64) {
        self[set] += number as u32;
    }

    #[inline(always)]
    fn below(&mut self) {
        *self = below_two(vector(self)).to_array();
    }

    #[inline(always)]
    fn copy_from(&mut self, others: &[u32; 4]) {
        *self = *others;
    }

    #[inline(always)]
    fn more_than(&mut self, others: &[u32; 4], number: u64) {
        let more = u32x4::splat(number as u32);
        *self = u32x4::from_array(*others).strict_add(more).to_array();
    }

    #[inline(always)]
    fn plus(&mut self, others: &[u32; 4]) {
        let (numbers, others) = (u32x4::from_array(*self), u32x4::from_array(*others));
        *self = numbers.strict_add(others).to_array();
    }

    #[inline(always)]
    fn at_most(&mut self, number: u64) {
        let number = u32x4::splat(number as u32);
        *self = u32x4::from_array(*self).simd_min(number).to_array();
    }

    #[inline(always)]
    fn more_at_most(&mut self, others: &[u32; 4], number: u64, limits: &[u32; 4]) {
        let more = u32x4::splat(number as u32);
        let (others, limits) = (u32x4::from_array(*others), u32x4::from_array(*limits));
        *self = others.strict_add(more).simd_min(limits).to_array();
    }

    #[inline(always)]
    fn greater_with(
        &mut self,
        others: &[u32; 4],
        rate: u64,
        paid: &[u32; 4],
        extras: &[u32; 4],
        owed: &[u32; 4],
    ) {
        let saved = u32x4::splat(low_bits(rate)).strict_mul(u32x4::from_array(*paid));
        let debts = u32x4::from_array(*extras).strict_mul(u32x4::from_array(*owed));
        let (numbers, others) = (u32x4::from_array(*self), u32x4::from_array(*others));
        *self = raise(numbers, others, saved, debts).to_array();
    }

    #[inline(always)]
    fn or_saved<C: Count>(
        &mut self,
        others: &[u32; 4],
        hold: u64,
        days_before: &[u32; 4],
        extras: Classes<&[u32; 4]>,
        owed: Classes<&[u32; 4]>,
        owed_before: Classes<&[u32; 4]>,
    ) {
        let saved = u32x4::splat(low_bits(hold)).strict_mul(u32x4::from_array(*days_before));
        let debts = owed_from::<C>(extras.lanes(), owed.lanes(), owed_before.lanes());
        let (numbers, others) = (u32x4::from_array(*self), u32x4::from_array(*others));
        *self = raise(numbers, others, saved, debts).to_array();
    }

    #[inline(always)]
    fn pass<C: Count>(
        &mut self,
        holds: &[u64; 10],
        days: &[u32; 4],
        extras: Classes<&[u32; 4]>,
        owed: Classes<&[u32; 4]>,
    ) {
        let (extras, owed) = (extras.lanes(), owed.lanes());
        let numbers = pass_two::<C>(vector(self), holds, vector(days), extras, owed);
        *self = numbers.to_array();
    }
}

/// A table of one more place: the numbers of the sets without it, and of the sets with it.
#[derive(Debug, Clone, Copy)]
pub struct Halves<T> {
    without: T,
    with: T,
}

impl<'a, T: BySet> Classes<&'a Halves<T>> {
    /// Returns the tables of the sets without the last place.
    #[inline(always)]
    fn without(self) -> Classes<&'a T>
        ensures { (class set : ℕ) → set < 2 ^ T.places
            → by_class (λ s. T.value s.now) result class set
            ≡ by_class (λ s. halves T.places (T.value s.now.without) (T.value s.now.with)) self.entry class set }
    {
        Classes {
            first: &self.first.without,
            second: &self.second.without,
        }
    }

    /// Returns the tables of the sets with the last place.
    #[inline(always)]
    fn with(self) -> Classes<&'a T>
        ensures { (class set : ℕ) → set < 2 ^ T.places
            → by_class (λ s. T.value s.now) result class set
            ≡ by_class (λ s. halves T.places (T.value s.now.without) (T.value s.now.with)) self.entry class
            (with set T.places) }
    {
        Classes {
            first: &self.first.with,
            second: &self.second.with,
        }
    }
}

impl<T: BySet> BySet for Halves<T> {
    ghost places = { suc T.places };

    ghost most = { T.most };

    ghost value = { λ both. halves T.places (T.value both.without) (T.value both.with) };

    ghost narrow = { T.narrow };

    fn places() -> usize {
        T::places() + 1
    }

    fn all(number: u64) -> Self {
        Halves {
            without: T::all(number),
            with: T::all(number),
        }
    }

    fn none_and_others(none: u64, others: u64) -> Self {
        Halves {
            without: T::none_and_others(none, others),
            with: T::all(others),
        }
    }

    fn at(&self, set: usize) -> u64 {
        let place = 1 << T::places();
        if set < place {
            self.without.at(set)
        } else {
            self.with.at(set - place)
        }
    }

    #[inline(always)]
    fn other_sums(&mut self, first: u64, numbers: &[u64; 10]) {
        self.with.other_sums(first, numbers);
        self.without.more_than(&self.with, numbers[T::places()]);
    }

    fn add(&mut self, set: usize, number: u64) {
        let place = 1 << T::places();
        if set < place {
            self.without.add(set, number);
        } else {
            self.with.add(set - place, number);
        }
    }

    #[inline(always)]
    fn below(&mut self) {
        self.without.below();
        self.with.below();
        self.with.plus(&self.without);
    }

    #[inline(always)]
    fn copy_from(&mut self, others: &Self) {
        self.without.copy_from(&others.without);
        self.with.copy_from(&others.with);
    }

    #[inline(always)]
    fn more_than(&mut self, others: &Self, number: u64) {
        self.without.more_than(&others.without, number);
        self.with.more_than(&others.with, number);
    }

    #[inline(always)]
    fn plus(&mut self, others: &Self) {
        self.without.plus(&others.without);
        self.with.plus(&others.with);
    }

    #[inline(always)]
    fn at_most(&mut self, number: u64) {
        self.without.at_most(number);
        self.with.at_most(number);
    }

    #[inline(always)]
    fn more_at_most(&mut self, others: &Self, number: u64, limits: &Self) {
        self.without
            .more_at_most(&others.without, number, &limits.without);
        self.with.more_at_most(&others.with, number, &limits.with);
    }

    #[inline(always)]
    fn greater_with(&mut self, others: &Self, rate: u64, paid: &Self, extras: &Self, owed: &Self) {
        self.without.greater_with(
            &others.without,
            rate,
            &paid.without,
            &extras.without,
            &owed.without,
        );
        self.with
            .greater_with(&others.with, rate, &paid.with, &extras.with, &owed.with);
    }

    #[inline(always)]
    fn or_saved<C: Count>(
        &mut self,
        others: &Self,
        hold: u64,
        days_before: &Self,
        extras: Classes<&Self>,
        owed: Classes<&Self>,
        owed_before: Classes<&Self>,
    ) {
        let (low, low_owed, low_before) = (extras.without(), owed.without(), owed_before.without());
        let (high, high_owed, high_before) = (extras.with(), owed.with(), owed_before.with());
        self.without.or_saved::<C>(
            &others.without,
            hold,
            &days_before.without,
            low,
            low_owed,
            low_before,
        );
        self.with.or_saved::<C>(
            &others.with,
            hold,
            &days_before.with,
            high,
            high_owed,
            high_before,
        );
    }

    #[inline(always)]
    fn pass<C: Count>(
        &mut self,
        holds: &[u64; 10],
        days: &Self,
        extras: Classes<&Self>,
        owed: Classes<&Self>,
    ) {
        let (low, low_owed) = (extras.without(), owed.without());
        let (high, high_owed) = (extras.with(), owed.with());
        self.without.pass::<C>(holds, &days.without, low, low_owed);
        self.with.or_saved::<C>(
            &self.without,
            holds[T::places()],
            &days.without,
            high,
            high_owed,
            low_owed,
        );
        self.with.pass::<C>(holds, &days.with, high, high_owed);
    }
}
