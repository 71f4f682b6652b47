// Stripes (shards) of the transposition table.
ghost use Rattle.std.specs.Prelude.{◌≡◌, ℕ, ◌<◌, [], length, replicate, slice_set, IfOk};
ghost use Rattle.strip_table.specs.Home.{bucket_of};
ghost use Rattle.strip_table.specs.Bucket.{Puts, find_in};
ghost use Rattle.strip_table.specs.Stripe.{IsStripe, bucket_at, home};

use crate::bucket::Bucket;
use crate::home::bucket_of;
use crate::slot::{PLACES, Slot, place_of, put_in};
use std::alloc::Global;
use std::marker::Model;
use strip_film::{Known, Noted};
use strip_io::Memory;

/// A stripe: a list of buckets, each with at most four entries of sets that belong to it. Every method but `new` takes
/// constant time and allocates no memory.
#[derive(Debug, Drop)]
pub struct Stripe {
    // Indexed by bucket. Sets and bounds, which lookups read most, lie together.
    slots: Vec<Slot>,
    lines: Vec<[u32; PLACES]>,
    counts: Vec<u8>,
}

impl Model for Stripe {
    ghost use Rattle.std.specs.Prelude.{List};
    ghost use Rattle.strip_film.specs.declared.shared.Known.{Known};
    ghost use Rattle.strip_table.specs.Shown.{IsLaidOut, stripe_data};

    ghost Value = { List (List Known) };

    ghost view = { λ s. stripe_data s.slots.items s.lines.items s.counts.items };

    ghost invariant = { λ s. IsLaidOut s.slots.items s.lines.items s.counts.items };
}

impl Stripe {
    ghost use Rattle.strip_table.specs.Shown.{bucket_data};

    /// Makes a stripe of `buckets` empty buckets, at least 1. It allocates all memory of the stripe, 81 bytes for each
    /// bucket, and fails only if memory runs out.
    pub fn new(alloc: Global, buckets: u32) -> Result<Stripe, Memory>
        requires { 0 < buckets }
        ensures { IfOk result (λ stripe. stripe ≡ replicate buckets []) }
    {
        let empty = Slot {
            sets: [0; PLACES],
            bounds: [0; PLACES],
        };
        Ok(Stripe {
            slots: vec![in alloc; empty; buckets as usize]?,
            lines: vec![in alloc; [0; PLACES]; buckets as usize]?,
            counts: vec![in alloc; 0; buckets as usize]?,
        })
    }

    /// A law: every stripe is valid. The call does nothing when it runs.
    pub fn keeps_limits(&self)
        ensures { IsStripe self.now }
    {
        let _ = &self.slots;
    }

    /// Returns the number of buckets.
    pub fn buckets(&self) -> u32
        ensures { result ≡ length self.now }
    {
        self.slots.len() as u32
    }

    /// Looks up the entry of the set (probe).
    pub fn find(&self, set: u64) -> Option<Known>
        ensures { result ≡ find_in (home self.now set) set }
    {
        let bucket = self.home(set);
        let slot = &self.slots[bucket];
        let lines = &self.lines[bucket];
        let place = place_of(&slot.sets, self.counts[bucket], set)?;
        Some(Known {
            line: lines[place],
            set,
            bound: slot.bounds[place],
        })
    }

    /// Inserts a line into the bucket of its set (note), and returns the effect. The set's entry stays if its bound is
    /// at least as great; else the line replaces it. A new set is appended. In a full bucket it replaces the entry with
    /// the fewest scenes, or the first of them.
    pub fn put(&mut self, known: &Known) -> Noted
        ensures puts { Puts (home self.old known.now.set) known.now (home self.new known.now.set) result }
        ensures others { self.new ≡ slice_set self.old (bucket_of known.now.set (length self.old))
            (home self.new known.now.set) }
    {
        let bucket = self.home(known.set);
        put_in(
            &mut self.slots[bucket],
            &mut self.lines[bucket],
            &mut self.counts[bucket],
            known,
        )
    }

    /// Returns a copy of the entries of bucket `bucket`, which must be below the number of buckets.
    pub fn entries(&self, bucket: u32) -> Bucket
        requires { bucket < length self.now }
        ensures { bucket_data result ≡ bucket_at self.now bucket }
    {
        let bucket = bucket as usize;
        Bucket {
            slot: self.slots[bucket],
            lines: self.lines[bucket],
            count: self.counts[bucket] as usize,
        }
    }

    /// Returns the number of the set's bucket.
    fn home(&self, set: u64) -> usize
        ensures bucket { result ≡ bucket_of set (length self.now) }
        ensures below { result < length self.now }
    {
        self.keeps_limits();
        bucket_of(set, self.buckets()) as usize
    }
}
