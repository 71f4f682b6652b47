// Shared stores of the bounds of the triangle: a film of three scenes and three actors, with two actors in each scene.
ghost use Rattle.std.specs.Prelude.{◌≡◌};
ghost use Rattle.strip_film.specs.Film.{LiesIn};
ghost use Rattle.strip_bound.specs.Tables.{AreTables};

use crate::cases::film_of;
use std::alloc::Global;
use std::marker::Brand;
use std::sync::Wait;
use std::sync::atomic::{AtomicU64, Ordering};
use std::test::Fail;
use std::thread;
use std::thread::Threads;
use strip_bound::{BoundTables, Bounded, Bounds, FilmBounds, Room, static_bound};
use strip_film::Film;
use strip_mask::Mask;
use strip_memo::{Shared, Store};
use strip_model::Kind;

fn triangle(alloc: Global) -> Result<Film, Fail> {
    film_of(
        alloc,
        &[0b011, 0b110, 0b101],
        &[1, 1, 1],
        &[1, 2, 3],
        &[1, 2, 3],
        &[],
    )
}

fn all_of(film: &Film) -> Mask
    ensures { LiesIn film.now result.0 }
{
    film.keeps_limits();
    film.all()
}

/// A source of bounds that counts how often it is asked.
#[derive(Drop)]
struct Counted<'b, B: Bounds> {
    bounds: &'b B,
    times: AtomicU64,
}

impl<'b, B: Bounds> Bounds for Counted<'b, B> {
    ghost film = { B.film };

    ghost kind = { B.kind };

    fn film(&self) -> &Film {
        self.bounds.film()
    }

    fn kind(&self) -> Kind {
        self.bounds.kind()
    }

    fn reach(&self, q: Mask, need: u64, room: &mut Room) -> u64 {
        self.times.fetch_add(1, Ordering::SeqCst);
        self.bounds.reach(q, need, room)
    }
}

/// Returns a store's answers for the set of all scenes, if it is asked for 1, for the bound, and for 1 again.
fn asked_thrice<R: Wait, N: Bounded, B: Bounds>(
    rt: &R,
    alloc: Global,
    bounds: &B,
) -> Result<[u64; 3], Fail>
    requires kind { B.kind ≡ N.kind }
    requires film { B.film ≡ N.film }
{
    let store: Store<N> = Store::new(alloc, bounds.kind(), bounds.film().scenes())?;
    let shared = Shared::new(rt, &store, bounds);
    let all = all_of(bounds.film());
    let mut room = Room::new();
    let first = shared.reach(all, 1, &mut room);
    let whole = shared.reach(all, u64::MAX, &mut room);
    Ok([first, whole, shared.reach(all, 1, &mut room)])
}

/// Returns how often a store of this kind computes the bound if it is asked three times, or none if an answer is wrong.
fn times_asked<R: Wait>(rt: &R, alloc: Global, kind: Kind) -> Result<Option<u64>, Fail> {
    let film = triangle(alloc)?;
    let tables = BoundTables::of(alloc, &film)?;
    times_asked_of::<R, Brand>(rt, alloc, &film, &tables, kind)
}

fn times_asked_of<R: Wait, N: Bounded>(
    rt: &R,
    alloc: Global,
    film: &Film,
    tables: &BoundTables,
    kind: Kind,
) -> Result<Option<u64>, Fail>
    requires film { film.now ≡ N.film }
    requires kind { kind ≡ N.kind }
    requires tables { AreTables film.now tables.now }
{
    let bounds: FilmBounds<N> = FilmBounds::new(film, tables, kind);
    let counted = Counted {
        bounds: &bounds,
        times: AtomicU64::new(0),
    };
    let [first, whole, again] = asked_thrice::<R, N, _>(rt, alloc, &counted)?;
    let bound = static_bound(film, tables, kind, all_of(film));
    if first == 0 || first > bound || whole != bound || again > bound {
        return Ok(None);
    }
    Ok(Some(counted.times.load(Ordering::SeqCst)))
}

#[test]
fn a_bound_is_worked_out_once(rt: HostRuntime) -> Result<(), Fail> {
    let alloc = rt.alloc();
    assert!(&rt; times_asked(&rt, alloc, Kind::Groups)? == Some(1));
    assert!(&rt; times_asked(&rt, alloc, Kind::Arrivals)? == Some(2));
    assert!(&rt; times_asked(&rt, alloc, Kind::Pairs)? == Some(3));
    Ok(())
}

/// Returns the answers of a source of bounds for a set, with one thread for each of these requests.
fn reached<R: Threads + Wait + Sync, B: Bounds + Sync>(
    rt: &R,
    bounds: &B,
    set: Mask,
    needs: Vec<u64>,
) -> Result<Vec<u64>, Fail>
    requires lies { LiesIn B.film set.0 }
{
    let all = thread::map_vec(
        rt,
        needs,
        &|need: u64| -> u64
            requires { LiesIn B.film set.0 }
        { bounds.reach(set, need, &mut Room::new()) },
    )?;
    Ok(all)
}

/// Returns the answers for the set of all scenes, if the threads share a store.
fn reached_by_store<R: Threads + Wait + Sync, N: Bounded + Send + Sync, B: Bounds + Sync>(
    rt: &R,
    alloc: Global,
    bounds: &B,
    needs: Vec<u64>,
) -> Result<Vec<u64>, Fail>
    requires kind { B.kind ≡ N.kind }
    requires film { B.film ≡ N.film }
{
    let store: Store<N> = Store::new(alloc, bounds.kind(), bounds.film().scenes())?;
    let shared = Shared::new(rt, &store, bounds);
    reached(rt, &shared, all_of(bounds.film()), needs)
}

#[test]
fn workers_share_a_store(rt: HostRuntime) -> Result<(), Fail> {
    assert!(&rt; is_shared(&rt, rt.alloc())?);
    Ok(())
}

/// Tells whether four workers that share a store reach the values that they ask for.
fn is_shared<R: Threads + Wait + Sync>(rt: &R, alloc: Global) -> Result<bool, Fail> {
    let film = triangle(alloc)?;
    let tables = BoundTables::of(alloc, &film)?;
    is_shared_of::<R, Brand>(rt, alloc, &film, &tables, Kind::Arrivals)
}

fn is_shared_of<R: Threads + Wait + Sync, N: Bounded + Send + Sync>(
    rt: &R,
    alloc: Global,
    film: &Film,
    tables: &BoundTables,
    kind: Kind,
) -> Result<bool, Fail>
    requires film { film.now ≡ N.film }
    requires kind { kind ≡ N.kind }
    requires tables { AreTables film.now tables.now }
{
    let bounds: FilmBounds<N> = FilmBounds::new(film, tables, kind);
    let needs = Vec::from_slice(alloc, &[u64::MAX, 12, u64::MAX, 1])?;
    let all = reached_by_store::<R, N, _>(rt, alloc, &bounds, needs)?;
    Ok(are_reached(&all, static_bound(film, tables, kind, all_of(film))))
}

/// Tells whether each of the four numbers is at most the bound, and the first one equals it.
fn are_reached(all: &[u64], bound: u64) -> bool {
    all.len() == 4 && all.iter().all(|value| *value <= bound) && all[0] == bound
}
