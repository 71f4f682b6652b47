// Numbers for all subsets of a few places, and the dynamic program for the greatest saving over them.
ghost use Rattle.std.specs.Prelude.{◌≡◌, ℕ, ◌+◌, ◌*◌, ◌-◌, ◌^◌, ◌<◌, ◌≤◌, suc, max, length, slice_index};
ghost use Rattle.strip_mask.specs.Set.{full, with};
ghost use Rattle.strip_mask.specs.Sums.{sum_below};
ghost use Rattle.strip_sets.specs.Numbers.{AreLanes, halves};
ghost use Rattle.strip_group.specs.Saved.{HasRoom, Saves, left_by};

use std::simd::prelude::*;
use strip_mask::Mask;

/// An array with a number for each subset of the first few places.
pub(crate) trait BySet: Sized + Drop {
    /// Number of places.
    ghost places: { ℕ };

    /// The greatest number that fits in an entry.
    ghost most: { ℕ };

    /// The entry of a set.
    ghost value: { Self → ℕ → ℕ };

    /// Returns the number of places.
    fn places() -> usize
        requires { places ≤ 6 }
        ensures { result ≡ places };

    /// Makes an array of zeros.
    fn none() -> Self
        ensures { (set : ℕ) → set < 2 ^ places → value result set ≡ 0 };

    /// Adds to each set's entry the days that the table has for a subset of `scenes`. The subset has the scenes that
    /// stay at each place of the set: those in which none of its actors works.
    fn with_days(&self, table: &[u16; 4096], scenes: Mask, stays: &[u64; 6]) -> Self
        requires few { places ≤ 6 }
        requires scenes { scenes.0 < 4096 }
        requires fits { (set : ℕ) → set < 2 ^ places → value self.now set + 65535 ≤ most }
        ensures { (set : ℕ) → set < 2 ^ places → value result set ≡ value self.now set
            + slice_index table.now (left_by stays.now places set scenes.0) };

    /// Returns for each set the greater of its saving and the saving after the others. The latter adds `rate` for each
    /// day of the set.
    fn or_after(&self, others: &Self, days: &Self, rate: u64) -> Self
        requires rate { rate ≤ most }
        requires fits { (set : ℕ) → set < 2 ^ places → value others.now set + rate * value days.now set ≤ most }
        ensures { (set : ℕ) → set < 2 ^ places → value result set
            ≡ max (value self.now set) (value others.now set + rate * value days.now set) };

    /// Returns the greatest saving of each set. Its places may leave one after another, in any order, from the given
    /// savings of each set alone.
    fn saved(&self, days: &Self, rates: &[u64; 6]) -> Self
        requires few { places ≤ 6 }
        requires room { HasRoom places most rates.now (value days.now) (value self.now) }
        ensures { Saves places rates.now (value days.now) (value self.now) (value result) };

    /// Returns the total pay if each actor waits on all days without him: his rate times the entry of the set of his
    /// place alone.
    fn paid_alone(&self, rates: &[u64; 6]) -> u64
        requires few { places ≤ 6 }
        requires rates { (place : ℕ) → slice_index rates.now place ≤ 64_000_000_000 }
        requires days { (set : ℕ) → set < 2 ^ places → value self.now set ≤ 19800 }
        ensures { result ≡ sum_below places (λ place. slice_index rates.now place * value self.now (with 0 place)) };

    /// Returns the entry of the empty set.
    fn first(&self) -> u64
        ensures { result ≡ value self.now 0 };

    /// Returns the entry of the set of all places.
    fn last(&self) -> u64
        ensures { result ≡ value self.now (full places) };
}

/// A single number, for no place.
impl BySet for u64 {
    ghost places = { 0 };

    ghost most = { 2 ^ 64 - 1 };

    ghost value = { λ number set. number };

    fn places() -> usize {
        0
    }

    fn none() -> u64 {
        0
    }

    #[inline(always)]
    fn with_days(&self, table: &[u16; 4096], scenes: Mask, _stays: &[u64; 6]) -> u64 {
        *self + table[scenes.0 as usize] as u64
    }

    #[inline(always)]
    fn or_after(&self, others: &u64, days: &u64, rate: u64) -> u64 {
        (*self).max(*others + rate * *days)
    }

    #[inline(always)]
    fn saved(&self, _days: &u64, _rates: &[u64; 6]) -> u64 {
        *self
    }

    fn paid_alone(&self, _rates: &[u64; 6]) -> u64 {
        0
    }

    fn first(&self) -> u64 {
        *self
    }

    fn last(&self) -> u64 {
        *self
    }
}

/// The four subsets of two places, in the lanes of one vector.
impl BySet for [u32; 4] {
    ghost places = { 2 };

    ghost most = { 2 ^ 32 - 1 };

    ghost value = { slice_index };

    fn places() -> usize {
        2
    }

    fn none() -> [u32; 4] {
        [0; 4]
    }

    #[inline(always)]
    fn with_days(&self, table: &[u16; 4096], scenes: Mask, stays: &[u64; 6]) -> [u32; 4] {
        let first = scenes.meet(Mask(stays[0]));
        let second = scenes.meet(Mask(stays[1]));
        let both = second.meet(Mask(stays[0]));
        let days = u16x4::from_array([
            table[scenes.0 as usize],
            table[first.0 as usize],
            table[second.0 as usize],
            table[both.0 as usize],
        ])
        .cast::<u32>();
        u32x4::from_array(*self).strict_add(days).to_array()
    }

    #[inline(always)]
    fn or_after(&self, others: &[u32; 4], days: &[u32; 4], rate: u64) -> [u32; 4] {
        let (alone, others) = (u32x4::from_array(*self), u32x4::from_array(*others));
        or_paid(
            alone,
            others,
            u32x4::from_array(*days),
            u32x4::splat(rate as u32),
        )
        .to_array()
    }

    #[inline(always)]
    fn saved(&self, days: &[u32; 4], rates: &[u64; 6]) -> [u32; 4] {
        let (first, second) = (rates[0] as u32, rates[1] as u32);
        let days = u32x4::from_array(*days);
        let by_first = u32x4::from_array([0, first, 0, first]);
        let by_second = u32x4::from_array([0, 0, second, second]);
        let saved = u32x4::from_array(*self);
        let saved = or_paid(saved, saved.swizzle([0, 0, 2, 2]), days, by_first);
        let saved = or_paid(saved, saved.swizzle([0, 1, 0, 1]), days, by_second);
        or_paid(saved, saved.swizzle([0, 0, 2, 2]), days, by_first).to_array()
    }

    #[inline(always)]
    fn paid_alone(&self, rates: &[u64; 6]) -> u64 {
        rates[0] * self[1] as u64 + rates[1] * self[2] as u64
    }

    fn first(&self) -> u64 {
        self[0] as u64
    }

    fn last(&self) -> u64 {
        self[3] as u64
    }
}

/// Returns in each lane the greater of the saving alone and the saving of others plus a rate for some days.
#[inline(always)]
fn or_paid(alone: u32x4, others: u32x4, days: u32x4, rates: u32x4) -> u32x4
    requires lanes { AreLanes alone × AreLanes others × AreLanes days × AreLanes rates }
    requires fits { (lane : ℕ) → lane < 4 → slice_index others lane
        + slice_index rates lane * slice_index days lane < 2 ^ 32 }
    ensures lanes { AreLanes result }
    ensures each { (lane : ℕ) → lane < 4 → slice_index result lane
        ≡ max (slice_index alone lane) (slice_index others lane + slice_index rates lane * slice_index days lane) }
{
    alone.simd_max(others.strict_add(rates.strict_mul(days)))
}

/// One place more: the entries of the sets without it, and of the sets with it.
#[derive(Debug, Drop)]
pub(crate) struct Halves<T> {
    without: T,
    with: T,
}

impl<T: BySet> BySet for Halves<T> {
    ghost places = { suc T.places };

    ghost most = { T.most };

    ghost value = { λ both. halves T.places (T.value both.without) (T.value both.with) };

    fn places() -> usize {
        T::places() + 1
    }

    fn none() -> Self {
        Halves {
            without: T::none(),
            with: T::none(),
        }
    }

    #[inline(always)]
    fn with_days(&self, table: &[u16; 4096], scenes: Mask, stays: &[u64; 6]) -> Self {
        let left = scenes.meet(Mask(stays[T::places()]));
        Halves {
            without: self.without.with_days(table, scenes, stays),
            with: self.with.with_days(table, left, stays),
        }
    }

    #[inline(always)]
    fn or_after(&self, others: &Self, days: &Self, rate: u64) -> Self {
        Halves {
            without: self.without.or_after(&others.without, &days.without, rate),
            with: self.with.or_after(&others.with, &days.with, rate),
        }
    }

    #[inline(always)]
    fn saved(&self, days: &Self, rates: &[u64; 6]) -> Self {
        let without = self.without.saved(&days.without, rates);
        let after = self.with.or_after(&without, &days.with, rates[T::places()]);
        Halves {
            with: after.saved(&days.with, rates),
            without,
        }
    }

    #[inline(always)]
    fn paid_alone(&self, rates: &[u64; 6]) -> u64 {
        self.without.paid_alone(rates) + rates[T::places()] * self.with.first()
    }

    fn first(&self) -> u64 {
        self.without.first()
    }

    fn last(&self) -> u64 {
        self.with.last()
    }
}
