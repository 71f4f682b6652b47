// Sums of days over sets of scenes, by precomputed tables.
ghost use Rattle.std.specs.Prelude.{◌≡◌, ℕ, ◌+◌, ◌*◌, ◌^◌, ◌<◌, ◌≤◌, IfOk, drop, length, slice_index, sum};
ghost use Rattle.strip_mask.specs.Set.{sum_over};
ghost use Rattle.strip_group.specs.Days.{block_of};
ghost use Rattle.strip_group.specs.Saved.{left_by};

use crate::by_set::BySet;
use std::alloc::{AllocError, Global};
use std::marker::Model;
use strip_io::Memory;
use strip_mask::Mask;

/// Number of scenes of a table, and number of their subsets.
const BLOCK: usize = 12;

const SETS: usize = 4096;

/// The days of each set of a film's scenes, at most 64. There is a table of all subsets for each twelve scenes. So a
/// film of 24 scenes takes two lookups for a set, and 16 KiB.
#[derive(Debug, Drop)]
pub struct DaySums {
    days: Vec<u64>,
    all: u64,
    tables: Vec<[u16; SETS]>,
}

impl Model for DaySums {
    ghost use Rattle.std.specs.Prelude.{ℕ, List, ◌≡◌, sum};
    ghost use Rattle.strip_group.specs.Days.{AreSums};

    ghost Value = { List ℕ };

    ghost view = { λ s. s.days.items };

    ghost invariant = { λ s. AreSums s.days.items s.tables.items × (s.all ≡ sum s.days.items) };
}

impl DaySums {
    /// Makes the tables of these days. It takes 4096 iterations for each twelve scenes. It fails only if memory runs
    /// out.
    pub fn of(alloc: Global, days: &[u64]) -> Result<DaySums, Memory>
        requires few { length days.now ≤ 64 }
        requires day_sum { sum days.now ≤ 19800 }
        ensures { IfOk result (λ sums. sums ≡ days.now) }
    {
        let mut tables = Vec::new(alloc);
        for number in 0..days.len().div_ceil(BLOCK) {
            tables.push(table_from(days, BLOCK * number))?;
        }
        Ok(DaySums {
            days: copy_of(alloc, days)?,
            all: sum_of(days),
            tables,
        })
    }

    /// Returns the days of all scenes.
    pub(crate) fn all(&self) -> u64
        ensures { result ≡ sum self.now }
    {
        self.all
    }

    /// Returns the days of the set's scenes. It takes a lookup for each twelve scenes of the film.
    pub fn sum(&self, set: Mask) -> u64
        ensures { result ≡ sum_over self.now set.0 }
    {
        let mut sum = 0;
        for number in 0..self.tables.len() {
            sum += self.tables[number][block(set, number).0 as usize] as u64;
        }
        sum
    }

    /// Returns for each set of places the days of the scenes that `stays` has at each of its places. It takes an
    /// iteration for each twelve scenes of the film.
    pub(crate) fn by_set<T: BySet>(&self, scenes: Mask, stays: &[u64; 6]) -> T
        requires few { T.places ≤ 6 }
        requires wide { 4294967295 ≤ T.most }
        ensures { (set : ℕ) → set < 2 ^ T.places → T.value result set
            ≡ sum_over self.now (left_by stays.now T.places set scenes.0) }
    {
        let mut days = T::none();
        for number in 0..self.tables.len() {
            days = days.with_days(
                &self.tables[number],
                block(scenes, number),
                &blocks_of(stays, number),
            );
        }
        days
    }
}

/// Returns the block of this number of each of the six sets.
fn blocks_of(sets: &[u64; 6], number: usize) -> [u64; 6]
    requires { number < 6 }
    ensures { (place : ℕ) → place < 6 → slice_index result place ≡ block_of (slice_index sets.now place) number }
{
    let mut parts = [0; 6];
    for place in 0..6 {
        parts[place] = block(Mask(sets[place]), number).0;
    }
    parts
}

/// Returns the members of the set among the twelve scenes of block `number`, as a set of numbers below 12.
fn block(set: Mask, number: usize) -> Mask
    requires { number < 6 }
    ensures is { result.0 ≡ block_of set.0 number }
    ensures small { result.0 < 4096 }
{
    Mask(set.0 >> (BLOCK * number) & (SETS as u64 - 1))
}

/// Returns the days of each subset of the twelve scenes from `first` on.
fn table_from(days: &[u64], first: usize) -> [u16; SETS]
    requires few { length days.now ≤ 64 }
    requires first { first ≤ 64 }
    requires day_sum { sum days.now ≤ 19800 }
    ensures { (set : ℕ) → set < 4096 → slice_index result set ≡ sum_over (drop first days.now) set }
{
    let mut table = [0; SETS];
    for number in 1..SETS {
        let set = Mask(number as u64);
        match set.first() {
            Some(scene) => {
                let day = day_of(days, first + scene as usize);
                table[number] = table[set.without(scene).0 as usize] + day as u16;
            }
            None => unreachable!(),
        }
    }
    table
}

/// Returns the sum of the days.
fn sum_of(days: &[u64]) -> u64
    requires { sum days.now ≤ 19800 }
    ensures { result ≡ sum days.now }
{
    let mut sum = 0;
    for scene in 0..days.len() {
        sum += days[scene];
    }
    sum
}

/// Returns the days of a scene, or 0 behind the last scene.
fn day_of(days: &[u64], scene: usize) -> u64
    ensures { result ≡ slice_index days.now scene }
{
    if scene < days.len() { days[scene] } else { 0 }
}

/// Returns a copy of the numbers. It fails only if memory runs out.
pub(crate) fn copy_of(alloc: Global, numbers: &[u64]) -> Result<Vec<u64>, AllocError>
    ensures { IfOk result (λ copy. copy.items ≡ numbers.now) }
{
    numbers.to_vec(alloc)
}
