// Films as plain lists, and the instances and films made from them.
use crate::films;
use std::alloc::Global;
use std::test::Fail;
use strip_film::Film;
use strip_mask::Mask;
use strip_model::{Actor, Instance, Pair, Scene};

/// The cast and days of each scene, the rate and hold rate of each actor, and the pairs.
pub(crate) struct Lists {
    pub(crate) casts: &'static [u64],
    pub(crate) days: &'static [u64],
    pub(crate) rates: &'static [u64],
    pub(crate) holds: &'static [u64],
    pub(crate) pairs: &'static [(u16, u16)],
}

pub(crate) fn instance_of(alloc: Global, lists: &Lists) -> Result<Instance, Fail> {
    let free = instance(alloc, lists.casts, lists.days, lists.rates, lists.holds)?;
    with_pairs(alloc, free, lists.pairs)
}

pub(crate) fn film_of(alloc: Global, lists: &Lists) -> Result<Film, Fail> {
    let pairs = pairs_of(alloc, lists.pairs)?;
    let film = films::film_of(
        alloc,
        lists.casts,
        lists.days,
        lists.rates,
        lists.holds,
        &pairs,
    )?;
    let film = film.ok_or("within the limits")?;
    Ok(film)
}

/// Makes the instance without pairs.
pub(crate) fn instance(
    alloc: Global,
    casts: &[u64],
    days: &[u64],
    rates: &[u64],
    holds: &[u64],
) -> Result<Instance, Fail> {
    let mut scenes = Vec::new(alloc);
    for (number, (&cast, &days)) in casts.iter().zip(days).enumerate() {
        let name = format!(in alloc; "s{number}")?;
        scenes.push(Scene { name, days, cast })?;
    }
    let mut actors = Vec::new(alloc);
    for (number, (&rate, &hold)) in rates.iter().zip(holds).enumerate() {
        let name = format!(in alloc; "a{number}")?;
        actors.push(Actor { name, rate, hold })?;
    }
    let inst = Instance::of(scenes, actors).ok_or("within the limits")?;
    Ok(inst)
}

/// Returns a cast of two actors for each scene: in turn, the first `kinds` pairs of 13 actors in lexicographic order.
pub(crate) fn casts_of_two(alloc: Global, scenes: usize, kinds: usize) -> Result<Vec<u64>, Fail> {
    let twos = twos(alloc)?;
    let mut casts = Vec::new(alloc);
    for scene in 0..scenes {
        let kind = scene.checked_rem(kinds).ok_or("some kinds")?;
        let cast = twos.get(kind).ok_or("at most 78 kinds")?;
        casts.push(*cast)?;
    }
    Ok(casts)
}

// Returns the 78 pairs of 13 actors, as casts.
fn twos(alloc: Global) -> Result<Vec<u64>, Fail> {
    let mut casts = Vec::new(alloc);
    for first in 0..13 {
        for second in first + 1..13 {
            casts.push(Mask(0).with(first).with(second).0)?;
        }
    }
    Ok(casts)
}

pub(crate) fn pairs_of(alloc: Global, pairs: &[(u16, u16)]) -> Result<Vec<Pair>, Fail> {
    let mut list = Vec::new(alloc);
    for &(first, then) in pairs {
        list.push(Pair { first, then })?;
    }
    Ok(list)
}

pub(crate) fn with_pairs(
    alloc: Global,
    inst: Instance,
    pairs: &[(u16, u16)],
) -> Result<Instance, Fail> {
    let pairs = pairs_of(alloc, pairs)?;
    if !inst.fits_pairs(&pairs) {
        return Err("pairs that fit".into());
    }
    Ok(inst.with_pairs(pairs))
}
