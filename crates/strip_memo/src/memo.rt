// The cache of static bounds (memo) of one worker.
ghost use Rattle.std.specs.Prelude.{◌≡◌, ◌-◌, ◌*◌, ◌^◌, ◌<◌, ◌≤◌, false, vec_len};
ghost use Rattle.strip_memo.specs.Memo.{IsMemo};

use std::alloc::Global;
use std::marker::PhantomData;
use strip_bound::{Bounds, Room};
use strip_io::Memory;
use strip_mask::Mask;
use strip_model::Kind;

const MULTIPLIER: u64 = 0x9E37_79B9_7F4A_7C15;

/// Maximum number of bytes of all workers' memos, 128 MB.
const MOST_BYTES: u64 = 1 << 27;

/// Number of bytes of an entry with its mark.
const ENTRY_ROOM: u64 = 17;

/// A cached value: a number that is at most the static bound of the set.
#[derive(Clone, Copy, Debug)]
pub(crate) struct Entry {
    pub set: u64,
    pub value: u64,
}

/// A memo: a direct-mapped cache of static bounds. The top bits of its hash give a set's place, which holds the set
/// stored there last. It also has the room in which bounds are computed.
#[derive(Drop)]
pub struct Memo<B: Bounds> {
    pub(crate) entries: Vec<Entry>,
    /// Whether each value is the whole bound.
    pub(crate) is_whole: bool,
    /// If `is_whole` is false, for each place whether its value is the whole bound.
    pub(crate) marks: Vec<bool>,
    shift: u32,
    room: Room,
    of: PhantomData<B>,
    pub ghost places: { (shift < 64) × (2 ^ (64 - shift) ≤ vec_len entries) },
    pub ghost marked: { is_whole ≡ false → vec_len marks ≡ vec_len entries },
    pub ghost known: { IsMemo B.kind B.film is_whole entries.items marks.items },
}

impl<B: Bounds> Memo<B> {
    ghost use Rattle.std.specs.Prelude.{◌≡◌, ℕ, ◌*◌, ◌^◌, ◌≤◌, ◌⊎◌, ◌<◌, ◌||◌, true, false, slice_index_or, IfOk, vec_len};
    ghost use Rattle.strip_mask.specs.Set.{has};
    ghost use Rattle.strip_film.specs.Film.{LiesIn};
    ghost use Rattle.strip_bound.specs.Bounds.{bound};
    ghost use Rattle.strip_memo.specs.Memo.{bytes_of};

    /// Makes a memo that knows the empty set alone. It has 2^18 entries of 16 bytes, 2^19 for groups, or 2^20 of 17
    /// bytes for arrivals. There are fewer if the film has few sets of scenes. It fails only if memory runs out.
    pub fn new(alloc: Global, bounds: &B) -> Result<Memo<B>, Memory> {
        Memo::among(alloc, bounds, 1)
    }

    /// Makes the memo of one of `workers` workers, 1 to 100, like `new`. The more workers, the fewer entries, so that
    /// all memos together take at most 128 MB. For groups and arrivals, several workers have at most 2^17 entries each,
    /// since they share a store of bounds.
    pub fn among(alloc: Global, bounds: &B, workers: u32) -> Result<Memo<B>, Memory>
        requires workers { (1 ≤ workers) × (workers ≤ 100) }
        ensures room { IfOk result (λ memo. bytes_of (vec_len memo.entries) * workers ≤ 2 ^ 27) }
    {
        let bits = bits_of(bounds.kind(), bounds.film().scenes(), workers);
        let is_whole = is_answered_whole(bounds.kind());
        let marks = if is_whole { 0 } else { 1 << bits };
        let empty = Entry {
            set: 0,
            value: bounds.whole(Mask(0)),
        };
        Ok(Memo {
            entries: vec![in alloc; empty; 1 << bits]?,
            is_whole,
            marks: vec![in alloc; true; marks]?,
            shift: 64 - bits,
            room: Room::new(),
            of: PhantomData,
        })
    }

    /// Returns a number that is at most the static bound of the set, in units of money, and at least `need` or the
    /// bound. It returns the cached value, if that suffices, or asks for a value and caches it.
    pub fn reach(&mut self, bounds: &B, q: Mask, need: u64) -> u64
        requires lies { LiesIn B.film q.0 }
        ensures most { result ≤ bound B.kind B.film q.0 }
        ensures reaches { (need ≤ result) ⊎ (result ≡ bound B.kind B.film q.0) }
    {
        let place = self.place(q);
        let entry = self.entries[place];
        if entry.set == q.0 && (entry.value >= need || self.has_whole(place)) {
            return entry.value;
        }
        if self.is_whole {
            let value = bounds.whole_in(q, &mut self.room);
            self.entries[place] = Entry { set: q.0, value };
            return value;
        }
        let value = bounds.reach(q, need, &mut self.room);
        self.entries[place] = Entry { set: q.0, value };
        self.marks[place] = value < need;
        value
    }

    /// Returns whether the value at this place is the whole bound.
    fn has_whole(&self, place: usize) -> bool
        requires { place < vec_len self.now.entries }
        ensures { result ≡ (self.now.is_whole || slice_index_or self.now.marks.items place false) }
    {
        self.is_whole || self.marks[place]
    }

    /// Returns those of the scenes without which the set is cached. The places are read in a row, so that the memory
    /// accesses overlap. The result is a hint: it affects the time only.
    pub fn standing(&self, q: Mask, scenes: Mask) -> Mask
        ensures { (scene : ℕ) → has result.0 scene ≡ true → has scenes.0 scene ≡ true }
    {
        let mut standing = Mask(0);
        for s in scenes.iter() {
            let rest = q.without(s);
            if self.entries[self.place(rest)].set == rest.0 {
                standing = standing.with(s);
            }
        }
        standing
    }

    /// Returns the place of the set's entry.
    fn place(&self, q: Mask) -> usize
        ensures { result < vec_len self.now.entries }
    {
        (q.0.wrapping_mul(MULTIPLIER) >> self.shift) as usize
    }
}

/// Returns the number of hash bits that give a set's place. It is at most two more than the number of scenes, and
/// within the memory limit for this number of workers.
fn bits_of(kind: Kind, scenes: usize, workers: u32) -> u32
    requires { (1 ≤ workers) × (workers ≤ 100) }
    ensures some { 0 < result }
    ensures few { result ≤ 20 }
    ensures room { 17 * 2 ^ result * workers ≤ 2 ^ 27 }
{
    let most = match kind {
        Kind::Plain | Kind::Pairs => 18,
        Kind::Groups | Kind::Arrivals if workers > 1 => 17,
        Kind::Groups => 19,
        Kind::Arrivals => 20,
    };
    let enough = match scenes {
        0..18 => most.min(scenes as u32 + 2),
        _ => most,
    };
    enough.min(bits_among(workers))
}

/// Returns the number of hash bits for which each of the workers has room.
fn bits_among(workers: u32) -> u32
    requires { (1 ≤ workers) × (workers ≤ 100) }
    ensures some { 0 < result }
    ensures room { 17 * 2 ^ result * workers ≤ 2 ^ 27 }
{
    (MOST_BYTES / (ENTRY_ROOM * u64::from(workers))).ilog2()
}

/// Returns whether the static bound of this kind is always computed whole. Then a memo may ask for the whole bound at
/// no extra cost.
fn is_answered_whole(kind: Kind) -> bool {
    match kind {
        Kind::Plain | Kind::Pairs | Kind::Groups => true,
        Kind::Arrivals => false,
    }
}
