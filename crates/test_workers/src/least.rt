// The least cost and the next part, used by several workers.
ghost use Rattle.std.specs.Prelude.{◌≡◌, ◌<◌, All, IfOk, IfSome, length};
ghost use Rattle.strip_film.specs.Path.{IsComplete, IsPath};
ghost use Rattle.strip_film.specs.Shown.{path_data};
ghost use Rattle.strip_least.specs.Pass.{IsPassOf, known};

use std::alloc::{AllocError, Global};
use std::test::Fail;
use std::thread;
use std::thread::Threads;
use strip_film::{Film, Path, laws, ready};
use strip_least::{Least, LeastPass};
use strip_model::Pair;

/// Makes the film of these lists, in which waiting is paid like work.
pub(crate) fn film_of(
    alloc: Global,
    casts: &[u64],
    days: &[u64],
    rates: &[u64],
    pairs: &[Pair],
) -> Result<Film, Fail> {
    let casts = Vec::from_slice(alloc, casts)?;
    let days = Vec::from_slice(alloc, days)?;
    let holds = Vec::from_slice(alloc, rates)?;
    let rates = Vec::from_slice(alloc, rates)?;
    let pairs = Vec::from_slice(alloc, pairs)?;
    let film = Film::of(casts, days, rates, holds, pairs).ok_or("within the limits")?;
    Ok(film)
}

/// Makes a film of three scenes, a day each. The first and the second have an actor of their own, the third has both.
fn film(alloc: Global, pairs: &[Pair]) -> Result<Film, Fail> {
    film_of(alloc, &[0b01, 0b10, 0b11], &[1, 1, 1], &[10, 20], pairs)
}

/// Makes the path of these scenes, or returns none if it isn't complete.
fn complete(film: &Film, scenes: &[u32]) -> Option<Path>
    ensures { IfSome result (λ path. IsComplete film.now (path_data path)) }
{
    laws::what_remains_lies_in_the_film();
    let mut path = Path::start(film);
    for scene in scenes {
        if *scene >= 64 || !ready(film, path.rest()).has(*scene) {
            return None;
        }
        path = path.extend(film, *scene);
    }
    path.rest().is_empty().then_some(path)
}

pub(crate) fn path(film: &Film, scenes: &[u32]) -> Result<Path, Fail>
    ensures { IfOk result (λ path. IsComplete film.now (path_data path)) }
{
    let path = complete(film, scenes).ok_or("a complete path")?;
    Ok(path)
}

/// Makes the path of the first scene and then the second, a task of two scenes, if the pairs allow it.
pub(crate) fn task_of_two(film: &Film) -> Option<Path>
    ensures path { IfSome result (λ task. IsPath film.now (path_data task)) }
    ensures two { IfSome result (λ task. length (path_data task).scenes ≡ 2) }
{
    laws::what_remains_lies_in_the_film();
    let start = Path::start(film);
    if !ready(film, start.rest()).has(0) {
        return None;
    }
    let one = start.extend(film, 0);
    if !ready(film, one.rest()).has(1) {
        return None;
    }
    Some(one.extend(film, 1))
}

/// The results of two passes.
#[derive(Debug, Drop)]
struct Seen {
    /// Costs in turn. Before a join: the second pass looks, the first offers, the second looks and offers, and its best
    /// path pays. After the join: the second looks, and its best path pays.
    told: [u64; 7],
    /// The parts that the first, the second and twice the first pass claim.
    claims: [Option<u32>; 4],
    /// The pay of the joined best path.
    paid: u64,
}

fn seen_by_two_passes(alloc: Global, film: &Film) -> Result<Seen, Fail> {
    let start = path(film, &[0, 1, 2])?;
    let cheaper = path(film, &[0, 2, 1])?;
    let (least, mut first) = Least::new(alloc, film, &start, 2)?;
    let mut second = first.split(&least);
    let before = second.look(&least);
    let offered = first.offer(&least, &cheaper);
    let behind = second.look(&least);
    let dearer = second.offer(&least, &start);
    let own = second.best().paid();
    second.join(&least, first.split(&least));
    let joined = second.look(&least);
    let best = second.best().paid();
    let claims = [
        first.claim(&least),
        second.claim(&least),
        first.claim(&least),
        first.claim(&least),
    ];
    first.join(&least, second);
    first.settle(&least);
    Ok(Seen {
        told: [before, offered, behind, dearer, own, joined, best],
        claims,
        paid: first.best().paid(),
    })
}

#[test]
fn two_passes_are_told_and_claim(rt: HostRuntime) -> Result<(), Fail> {
    let alloc = rt.alloc();
    let seen = seen_by_two_passes(alloc, &film(alloc, &[])?)?;
    assert!(&rt; seen.told == [70, 60, 60, 60, 70, 60, 60] && seen.paid == 60);
    assert!(&rt; seen.claims == [Some(0), Some(1), None, None]);
    Ok(())
}

// No path that breaks a pair can be offered.
#[test]
fn a_path_that_breaks_a_pair_is_not_complete(rt: HostRuntime) -> Result<(), Fail> {
    let alloc = rt.alloc();
    let film = film(alloc, &[Pair { first: 2, then: 1 }])?;
    assert!(&rt; complete(&film, &[0, 1, 2]).is_none());
    let (least, mut pass) = Least::new(alloc, &film, &path(&film, &[0, 2, 1])?, 1)?;
    assert!(&rt; pass.offer(&least, &path(&film, &[2, 1, 0])?) == 60);
    Ok(())
}

/// Claims until no part is left.
fn claim_all(alloc: Global, least: &Least, pass: LeastPass) -> Result<Vec<u32>, AllocError>
    requires { IsPassOf least.now pass }
{
    let mut pass = pass;
    let mut claims = Vec::new(alloc);
    for _turn in 0..u64::MAX {
        let Some(part) = pass.claim(least) else {
            return Ok(claims);
        };
        claims.push(part)?;
    }
    Err(AllocError)
}

/// Splits off `count` new passes.
fn deal(
    alloc: Global,
    least: &Least,
    pass: &mut LeastPass,
    count: u64,
) -> Result<Vec<LeastPass>, AllocError>
    requires pass { IsPassOf least.now pass.old }
    requires weight { count < (known pass.old).weight }
    ensures { IfOk result (λ passes. All (IsPassOf least.now) passes.items) }
{
    let mut passes = Vec::new(alloc);
    for _turn in 0..count {
        passes.push(pass.split(least))?;
    }
    Ok(passes)
}

/// Returns the parts that each pass claims, in a thread for each.
fn claim_beside<R: Threads + Sync>(
    rt: &R,
    alloc: Global,
    least: &Least,
    passes: Vec<LeastPass>,
) -> Result<Vec<Result<Vec<u32>, AllocError>>, AllocError>
    requires { All (IsPassOf least.now) passes.items }
{
    thread::map_vec(
        rt,
        passes,
        &|pass: LeastPass| -> Result<Vec<u32>, AllocError>
            requires { IsPassOf least.now pass }
        { claim_all(alloc, least, pass) },
    )
}

fn are_numbers_below(count: u32, claims: &[u32]) -> bool {
    claims.len() == count as usize && (0..count).zip(claims).all(|(part, claim)| part == *claim)
}

/// Returns the parts of a thousand that four workers claim, in rising order.
fn claimed_by_four<R: Threads + Sync>(
    rt: &R,
    alloc: Global,
    film: &Film,
) -> Result<Vec<u32>, Fail> {
    let (least, mut pass) = Least::new(alloc, film, &path(film, &[0, 1, 2])?, 1000)?;
    let passes = deal(alloc, &least, &mut pass, 4)?;
    gathered(alloc, claim_beside(rt, alloc, &least, passes)?)
}

fn gathered(alloc: Global, all: Vec<Result<Vec<u32>, AllocError>>) -> Result<Vec<u32>, Fail> {
    let mut claims = Vec::new(alloc);
    for claimed in all {
        claims.append(&mut claimed?)?;
    }
    claims.sort_unstable();
    Ok(claims)
}

#[test]
fn four_workers_claim_each_part_once(rt: HostRuntime) -> Result<(), Fail> {
    let film = film(rt.alloc(), &[])?;
    let claims = claimed_by_four(&rt, rt.alloc(), &film)?;
    assert!(&rt; are_numbers_below(1000, claims.as_slice()));
    Ok(())
}
