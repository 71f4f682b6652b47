// The entries of a bucket in memory, and the insertion (note) of a line.
ghost use Rattle.std.specs.Prelude.{◌≡◌, ◌==◌, ℕ, ◌+◌, ◌<◌, ◌≤◌, [], ◌∷◌, ◌++◌, length, slice_index, slice_set, take};
ghost use Rattle.std.specs.List.{position, remove};
ghost use Rattle.strip_mask.specs.Set.{size};
ghost use Rattle.strip_table.specs.Bucket.{Puts};
ghost use Rattle.strip_table.specs.Shown.{entries_of, used};

use std::simd::prelude::*;
use strip_film::{Known, Noted};
use strip_mask::Mask;

/// Maximum number of entries of a bucket.
pub const PLACES: usize = 4;

/// The sets of a bucket's entries, and their bounds. Values behind the last entry have no meaning.
#[derive(Clone, Copy, Debug)]
pub(crate) struct Slot {
    pub(crate) sets: [u64; PLACES],
    pub(crate) bounds: [u64; PLACES],
}

/// Returns the place of the set among the first `count` entries.
pub(crate) fn place_of(sets: &[u64; PLACES], count: u8, set: u64) -> Option<usize>
    requires { count ≤ PLACES }
    ensures { result ≡ position (λ other. other == set) (take count sets.now) }
{
    let hits = u64x4::from_slice(sets)
        .simd_eq(u64x4::splat(set))
        .to_bitmask();
    if hits == 0 {
        return None;
    }
    let place = hits.trailing_zeros() as usize;
    if place < count as usize {
        Some(place)
    } else {
        None
    }
}

/// Returns the place of the set with the fewest scenes, or the first of them.
fn fewest(sets: &[u64; PLACES]) -> usize
    ensures within { result < PLACES }
    ensures fewest { (place : ℕ) → place < PLACES
        → size (slice_index sets.now result) ≤ size (slice_index sets.now place) }
    ensures first { (place : ℕ) → place < result
        → size (slice_index sets.now result) < size (slice_index sets.now place) }
{
    let mut fewest = 0;
    for place in 1..PLACES {
        if Mask(sets[place]).size() < Mask(sets[fewest]).size() {
            fewest = place;
        }
    }
    fewest
}

/// Writes the line at a place.
fn write(slot: &mut Slot, lines: &mut [u32; PLACES], place: usize, known: &Known)
    requires { place < PLACES }
    ensures { entries_of slot.new.sets slot.new.bounds lines.new
        ≡ slice_set (entries_of slot.old.sets slot.old.bounds lines.old) place known.now }
{
    slot.sets[place] = known.set;
    slot.bounds[place] = known.bound;
    lines[place] = known.line;
}

/// Removes the value at a place, moves the later ones down, and puts `last` at the end.
fn close_up<T: Copy>(list: &mut [T; PLACES], place: usize, last: T)
    requires { place < PLACES }
    ensures { list.new ≡ remove list.old place ++ last ∷ [] }
{
    for to in place..PLACES - 1 {
        list[to] = list[to + 1];
    }
    list[PLACES - 1] = last;
}

/// Replaces the set's entry at this place by the line, if the line's bound is greater.
fn raise(
    slot: &mut Slot,
    lines: &mut [u32; PLACES],
    count: u8,
    place: usize,
    known: &Known,
) -> Noted
    requires few { count ≤ PLACES }
    requires place { position (λ set. set == known.now.set) (take count slot.old.sets) ≡ Some place }
    ensures { Puts (used slot.old lines.old count) known.now (used slot.new lines.new count) result }
{
    let bound = slot.bounds[place];
    if known.bound <= bound {
        return Noted::Stays { bound };
    }
    write(slot, lines, place, known);
    Noted::Raised
}

/// Replaces the entry with the fewest scenes of a full bucket by the line.
fn evict(slot: &mut Slot, lines: &mut [u32; PLACES], known: &Known) -> Noted
    requires { position (λ set. set == known.now.set) slot.old.sets ≡ None }
    ensures { Puts (used slot.old lines.old PLACES) known.now (used slot.new lines.new PLACES) result }
{
    let place = fewest(&slot.sets);
    let left = Noted::Evicted {
        set: slot.sets[place],
        bound: slot.bounds[place],
    };
    close_up(&mut slot.sets, place, known.set);
    close_up(&mut slot.bounds, place, known.bound);
    close_up(lines, place, known.line);
    left
}

/// Inserts a line into the bucket, whose first `count` places are used.
pub(crate) fn put_in(
    slot: &mut Slot,
    lines: &mut [u32; PLACES],
    count: &mut u8,
    known: &Known,
) -> Noted
    requires { count.old ≤ PLACES }
    ensures few { count.new ≤ PLACES }
    ensures puts { Puts (used slot.old lines.old count.old) known.now (used slot.new lines.new count.new) result }
{
    if let Some(place) = place_of(&slot.sets, *count, known.set) {
        return raise(slot, lines, *count, place, known);
    }
    if *count as usize == PLACES {
        return evict(slot, lines, known);
    }
    write(slot, lines, *count as usize, known);
    *count += 1;
    Noted::Fresh
}
