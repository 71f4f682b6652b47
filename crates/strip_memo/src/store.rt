// The shared cache of static bounds (store).
ghost use Rattle.std.specs.Prelude.{◌≡◌, ◌≤◌, ◌⊎◌, true, vec_len};
ghost use Rattle.strip_film.specs.Film.{LiesIn};
ghost use Rattle.strip_memo.specs.Entry.{IsEntry};

use crate::drawer::{DRAWERS, Drawer, drawer_of};
use crate::entry::Entry;
use std::alloc::Global;
use std::sync::{Mutex, Wait};
use strip_bound::{Bounded, Bounds, Room};
use strip_film::Film;
use strip_io::Memory;
use strip_mask::Mask;
use strip_model::Kind;

/// A store of static bounds that workers share: 64 drawers, each behind its own lock. A set's place holds the set
/// stored there last.
#[derive(Drop)]
pub struct Store<N: Bounded> {
    drawers: Vec<Mutex<Drawer<N>>>,
    pub ghost count: { vec_len drawers ≡ 64 },
}

impl<N: Bounded> Store<N> {
    /// Makes an empty store. It allocates all memory of the store, and fails only if memory runs out. For groups and
    /// arrivals it has 2^20 entries of 24 bytes, some 25 MB, or fewer if the film has few sets. For the cheap kinds it
    /// has 64 entries, which are not used.
    pub fn new(alloc: Global, kind: Kind, scenes: usize) -> Result<Store<N>, Memory> {
        let bits = bits_of(kind, scenes);
        let mut drawers = Vec::new(alloc);
        for _turn in 0..64usize {
            let drawer: Drawer<N> = Drawer::new(alloc, bits)?;
            drawers.push(Mutex::new(drawer))?;
        }
        Ok(Store { drawers })
    }
}

/// The static bounds of a store, and of another source for what the store doesn't know.
#[derive(Drop)]
pub struct Shared<'s, R: Wait, N: Bounded, B: Bounds> {
    rt: &'s R,
    store: &'s Store<N>,
    bounds: &'s B,
    pub ghost of_film: { B.film ≡ N.film },
    pub ghost of_kind: { B.kind ≡ N.kind },
}

impl<'s, R: Wait, N: Bounded, B: Bounds> Shared<'s, R, N, B> {
    /// Makes the bounds of a store, with another source of the same film and kind.
    pub fn new(rt: &'s R, store: &'s Store<N>, bounds: &'s B) -> Shared<'s, R, N, B>
        requires film { B.film ≡ N.film }
        requires kind { B.kind ≡ N.kind }
    {
        Shared { rt, store, bounds }
    }
}

impl<'s, R: Wait, N: Bounded, B: Bounds> Bounds for Shared<'s, R, N, B> {
    ghost film = { B.film };

    ghost kind = { B.kind };

    fn film(&self) -> &Film {
        self.bounds.film()
    }

    fn kind(&self) -> Kind {
        self.bounds.kind()
    }

    /// It returns the cached value, if that suffices, or computes a value and caches it for all workers. It waits for
    /// the lock of the set's drawer, and holds no lock while it computes. Bounds of the cheap kinds are computed each
    /// time.
    fn reach(&self, q: Mask, need: u64, room: &mut Room) -> u64 {
        if is_cheap(self.bounds.kind()) {
            return self.bounds.reach(q, need, room);
        }
        let drawer = &self.store.drawers[drawer_of(q)];
        let found = drawer.lock(self.rt).find(q, need);
        if let Some(value) = found {
            return value;
        }
        let entry = asked(self.bounds, q, need, room);
        drawer.lock(self.rt).put(entry);
        entry.value
    }

    fn whole(&self, q: Mask) -> u64 {
        if is_cheap(self.bounds.kind()) {
            return self.bounds.whole(q);
        }
        self.whole_in(q, &mut Room::new())
    }
}

/// Computes an entry of the set, up to `need`.
fn asked<B: Bounds>(bounds: &B, q: Mask, need: u64, room: &mut Room) -> Entry
    requires lies { LiesIn B.film q.0 }
    ensures set { result.set ≡ q.0 }
    ensures entry { IsEntry B.kind B.film result }
    ensures reaches { (need ≤ result.value) ⊎ (result.is_whole ≡ true) }
{
    let needed = match bounds.kind() {
        Kind::Arrivals => need,
        // These kinds always compute the whole bound.
        Kind::Plain | Kind::Pairs | Kind::Groups => u64::MAX,
    };
    let value = bounds.reach(q, needed, room);
    Entry {
        set: q.0,
        value,
        is_whole: value < needed,
    }
}

/// Returns the number of hash bits that give a set's place in its drawer. All drawers together have at most one entry
/// for each set, but each has at least one.
fn bits_of(kind: Kind, scenes: usize) -> u32
    ensures { result ≤ 14 }
{
    if is_cheap(kind) {
        return 0;
    }
    scenes.saturating_sub(6).min(14) as u32
}

/// Returns whether the bound is too cheap to be cached.
fn is_cheap(kind: Kind) -> bool {
    match kind {
        Kind::Plain | Kind::Pairs => true,
        Kind::Groups | Kind::Arrivals => false,
    }
}
