// Parallel answers to requests for static bounds.
ghost use Rattle.std.specs.Prelude.{◌≡◌, ◌+◌, ◌<◌, ◌^◌, All, IfOk, false, length};
ghost use Rattle.strip_model.specs.declared.kind.Kind.{Kind};
ghost use Rattle.strip_model.specs.Film.{FilmData};
ghost use Rattle.strip_film.specs.Film.{LiesIn};
ghost use Rattle.strip_layers.specs.Asks.{AreAnswered, IsAnswer, Suffices};
ghost use Rattle.strip_crew.specs.Spread.{AnswersAll, AreShares, AreValues, HasTurns, HasValues, IsValue};

use std::alloc::Global;
use std::thread;
use std::thread::Threads;
use strip_bound::{Bounds, Room};
use strip_film::Film;
use strip_io::Memory;
use strip_layers::{Answers, Ask, answer_in_turn};
use strip_mask::Mask;

/// With fewer unknown requests than this, no threads are started.
const FEW: usize = 64;

/// Several workers, who answer the requests of a layer in parallel, each in a thread. `by` is a closure that calls
/// `answer_beside`. The caller makes it, because a trait method can't hand the bounds to threads.
#[derive(Drop)]
pub struct Beside<'k, B: Bounds, G: Fn(&mut [Ask]) -> Result<(), Memory>> {
    pub bounds: &'k B,
    pub by: G,
}

impl<'k, B: Bounds, G: Fn(&mut [Ask]) -> Result<(), Memory>> Answers for Beside<'k, B, G> {
    ghost film = { B.film };

    ghost kind = { B.kind };

    ghost is_ready = { λ beside. AnswersAll (G.pre beside.by) (G.post beside.by) B.kind B.film };

    fn film(&self) -> &Film {
        self.bounds.film()
    }

    fn bound(&self, set: Mask) -> u64 {
        self.bounds.whole(set)
    }

    fn answer(&self, asks: &mut [Ask]) -> Result<(), Memory> {
        (self.by)(asks)
    }
}

/// One worker's share of the requests: a value for each of its turns.
#[derive(Drop)]
struct Share {
    values: Vec<u64>,
}

/// Answers each request that isn't known, on `workers` threads, or on the caller alone if fewer than `FEW` are unknown.
/// It asks for one bound for each. It takes a list for each worker, with a number for each of its requests and at most
/// one more.
pub fn answer_beside<R: Threads + Sync, B: Bounds + Sync>(
    rt: &R,
    alloc: Global,
    bounds: &B,
    workers: u32,
    asks: &mut [Ask],
) -> Result<(), Memory>
    requires workers { 0 < workers }
    requires lies { All (λ ask. LiesIn B.film ask.set) asks.old }
    ensures { IfOk result (λ _. AreAnswered B.kind B.film asks.old asks.new) }
{
    if unknown_count(asks) < FEW {
        answer_in_turn(bounds, asks);
        return Ok(());
    }
    let workers = workers as usize;
    let mut shares = make_shares(alloc, asks.len(), workers)?;
    let shares = &mut shares[..];
    find_values(rt, bounds, asks, workers, shares);
    take_values(asks, workers, shares);
    Ok(())
}

/// Returns the number of requests that aren't known.
fn unknown_count(asks: &[Ask]) -> usize {
    asks.iter().filter(|ask| !ask.is_known).count()
}

/// Makes a share for each worker, with as many turns as it takes to deal the requests.
fn make_shares(alloc: Global, asks: usize, workers: usize) -> Result<Vec<Share>, Memory>
    requires workers { 0 < workers }
    requires room { asks + workers < 2 ^ 64 }
    ensures { IfOk result (λ shares. AreShares asks workers shares.items) }
{
    let turns = asks.div_ceil(workers);
    let mut shares = Vec::with_capacity(alloc, workers)?;
    for _worker in 0..workers {
        shares.push(Share {
            values: vec![in alloc; 0; turns]?,
        })?;
    }
    Ok(shares)
}

/// Computes the value of each request that isn't known, each worker's in a thread. Neighbours cost about the same, so
/// they go to the workers in turn.
fn find_values<R: Threads + Sync, B: Bounds + Sync>(
    rt: &R,
    bounds: &B,
    asks: &[Ask],
    workers: usize,
    shares: &mut [Share],
)
    requires workers { 0 < workers }
    requires shares { AreShares (length asks.now) workers shares.old }
    requires lies { All (λ ask. LiesIn B.film ask.set) asks.now }
    ensures { AreValues B.kind B.film asks.now workers shares.new }
{
    thread::for_each_mut(
        rt,
        shares,
        workers,
        &|worker, share| fill(bounds, asks, workers, worker, share),
    );
}

/// Computes the values of one worker's requests. All are computed in one room, since a room takes longer to clear than
/// most values take.
fn fill<B: Bounds>(bounds: &B, asks: &[Ask], workers: usize, worker: usize, share: &mut Share)
    requires worker { worker < workers }
    requires turns { HasTurns (length asks.now) workers share.old }
    requires lies { All (λ ask. LiesIn B.film ask.set) asks.now }
    ensures turns { HasTurns (length asks.now) workers share.new }
    ensures values { HasValues B.kind B.film asks.now workers worker share.new }
{
    let mut room = Room::new();
    for turn in 0..share.values.len() {
        share.values[turn] = value_at(bounds, asks, turn * workers + worker, &mut room);
    }
}

/// Returns the value of the request with this number, or 0 if there is none or it is known. It asks for at most one
/// bound.
fn value_at<B: Bounds>(bounds: &B, asks: &[Ask], number: usize, room: &mut Room) -> u64
    requires { All (λ ask. LiesIn B.film ask.set) asks.now }
    ensures { IsValue B.kind B.film asks.now number result }
{
    match asks.get(number) {
        Some(ask) if !ask.is_known => bounds.reach(Mask(ask.set), ask.need, room),
        _ => 0,
    }
}

/// Copies the values to the requests that aren't known, in one pass.
fn take_values(asks: &mut [Ask], workers: usize, shares: &[Share])
    requires workers { 0 < workers }
    requires shares { AreShares (length asks.old) workers shares.now }
    ensures { (kind : Kind) (film : FilmData) → AreValues kind film asks.old workers shares.now
        → AreAnswered kind film asks.old asks.new }
{
    for number in 0..asks.len() {
        take_value(
            &mut asks[number],
            shares[number % workers].values[number / workers],
        );
    }
}

/// Sets a request's value, if it isn't known.
fn take_value(ask: &mut Ask, value: u64)
    ensures { (kind : Kind) (film : FilmData)
        → (ask.old.is_known ≡ false → Suffices kind film ask.old.set ask.old.need value)
        → IsAnswer kind film ask.old ask.new }
{
    if !ask.is_known {
        ask.value = value;
    }
}
