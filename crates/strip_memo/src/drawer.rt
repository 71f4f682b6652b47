// A shard (drawer) of the store.
ghost use Rattle.std.specs.Prelude.{◌≡◌, ◌-◌, ◌^◌, ◌<◌, ◌≤◌, ◌⊎◌, length, vec_len, IfSome};
ghost use Rattle.strip_bound.specs.Bounds.{bound};
ghost use Rattle.strip_memo.specs.Entry.{IsEntry};

use crate::entry::Entry;
use std::alloc::Global;
use std::marker::{Model, PhantomData};
use strip_bound::Bounded;
use strip_io::Memory;
use strip_mask::Mask;

const MULTIPLIER: u64 = 0xC2B2_AE3D_27D4_EB4F;

/// Number of drawers.
pub(crate) const DRAWERS: u64 = 64;

/// Number of hash values of each drawer.
const HASHES: u64 = 1 << 58;

/// A drawer: a direct-mapped cache, in which a set's place holds the set stored there last.
#[derive(Drop)]
pub(crate) struct Drawer<N: Bounded> {
    entries: Vec<Entry>,
    shift: u32,
    of: PhantomData<N>,
}

impl<N: Bounded> Model for Drawer<N> {
    ghost use Rattle.std.specs.Prelude.{◌-◌, ◌^◌, ◌≤◌, List, All, length};
    ghost use Rattle.strip_memo.specs.declared.entry.Entry.{Entry};
    ghost use Rattle.strip_memo.specs.Entry.{IsEntry};

    ghost Value = { List Entry };

    ghost view = { λ d. d.entries.items };

    ghost invariant = { λ d. (d.shift ≤ 58) × (2 ^ (58 - d.shift) ≤ length d.entries.items) × All (IsEntry N.kind N.film) d.entries.items };
}

impl<N: Bounded> Drawer<N> {
    /// Makes a drawer of 2^bits entries, 24 bytes each, with the trivial bound 0. It fails only if memory runs out.
    pub(crate) fn new(alloc: Global, bits: u32) -> Result<Drawer<N>, Memory>
        requires { bits ≤ 15 }
    {
        let nothing = Entry {
            set: 0,
            value: 0,
            is_whole: false,
        };
        Ok(Drawer {
            entries: vec![in alloc; nothing; 1 << bits]?,
            shift: 58 - bits,
            of: PhantomData,
        })
    }

    /// Returns the cached value of the set, if it is at least `need` or the whole bound.
    pub(crate) fn find(&self, set: Mask, need: u64) -> Option<u64>
        ensures most { IfSome result (λ value. value ≤ bound N.kind N.film set.0) }
        ensures reaches { IfSome result (λ value. (need ≤ value) ⊎ (value ≡ bound N.kind N.film set.0)) }
    {
        let entry = self.entries[self.place(set)];
        if entry.set == set.0 && (entry.value >= need || entry.is_whole) {
            Some(entry.value)
        } else {
            None
        }
    }

    /// Stores an entry at the place of its set, unless the entry there says at least as much of the same set.
    pub(crate) fn put(&mut self, entry: Entry)
        requires { IsEntry N.kind N.film entry }
    {
        let place = self.place(Mask(entry.set));
        if !self.entries[place].serves_for(&entry) {
            self.entries[place] = entry;
        }
    }

    /// Returns the place of the set's entry.
    fn place(&self, set: Mask) -> usize
        ensures { result < length self.now }
    {
        (hash_of(set) % HASHES >> self.shift) as usize
    }
}

/// Returns the drawer of the set, by the top bits of its hash. The following bits give the place in the drawer.
pub(crate) fn drawer_of(set: Mask) -> usize
    ensures { result < 64 }
{
    (hash_of(set) / HASHES) as usize
}

/// Returns the hash of a set. It differs from the hash of the memos, so that sets that collide there seldom collide
/// here.
fn hash_of(set: Mask) -> u64 {
    set.0.wrapping_mul(MULTIPLIER)
}
