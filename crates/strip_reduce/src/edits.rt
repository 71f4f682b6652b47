// Effects of a step on each list of the state.
ghost use Rattle.std.specs.Prelude.{◌≡◌, ◌+◌, ◌^◌, ◌<◌, ◌≤◌, ◌++◌, [], length, map, slice_index_or, sum, vec_len, OnOk};
ghost use Rattle.strip_film.specs.Film.{film_data};
ghost use Rattle.strip_reduce.specs.Steps.{casts_without, joined, renumbered, renumbered_pair, summed, work_days};

use std::alloc::AllocError;
use strip_mask::Mask;
use strip_model::Pair;

/// Removes the actor from the casts, and lowers the numbers of later actors by one.
pub(crate) fn close_up(casts: &mut [u64], actor: u32)
    requires { actor < 64 }
    ensures { casts.new ≡ casts_without casts.old actor }
{
    for cast in casts.iter_mut() {
        *cast = Mask(*cast).closed_up(actor).0;
    }
}

/// Returns the days of the scenes that the actor works in.
pub(crate) fn work_days(casts: &[u64], days: &[u64], actor: u32) -> u64
    requires actor { actor < 64 }
    requires count { length days.now ≡ length casts.now }
    requires small { sum days.now < 2 ^ 64 }
    ensures days { result ≡ work_days (film_data casts.now days.now [] [] []) actor }
    ensures within { result ≤ sum days.now }
{
    let mut total = 0;
    for (scene, cast) in casts.iter().enumerate() {
        if Mask(*cast).has(actor) {
            total += days[scene];
        }
    }
    total
}

/// Stores the sum of the values at places `a` and `b` at place `a`, and removes place `b`.
pub(crate) fn sum_up(values: &mut Vec<u64>, a: usize, b: usize)
    requires places { a < b }
    requires within { b < vec_len values.old }
    requires small { sum values.old.items < 2 ^ 64 }
    ensures { values.new.items ≡ summed values.old.items a b }
{
    let gone = values.remove(b);
    values[a] += gone;
}

/// Renumbers the pairs' scenes for the removal of scene `gone`.
pub(crate) fn renumber(pairs: &mut [Pair], gone: u16)
    ensures { pairs.new ≡ map (renumbered_pair gone) pairs.old }
{
    for pair in pairs.iter_mut() {
        *pair = renumbered_pair(*pair, gone);
    }
}

fn renumbered_pair(pair: Pair, gone: u16) -> Pair
    ensures { result ≡ renumbered_pair gone pair }
{
    Pair {
        first: renumbered(pair.first, gone),
        then: renumbered(pair.then, gone),
    }
}

fn renumbered(scene: u16, gone: u16) -> u16
    ensures { result ≡ renumbered gone scene }
{
    if gone < scene { scene - 1 } else { scene }
}

/// Appends the members of scene `b` to those of scene `a`, and removes place `b`.
pub(crate) fn join_members(
    members: &mut Vec<Vec<u16>>,
    a: usize,
    b: usize,
) -> Result<(), AllocError>
    requires places { a < b }
    requires within { b < vec_len members.old }
    ensures { OnOk result (let lists = map (λ list. list.items) members.old.items in
        map (λ list. list.items) members.new.items ≡ joined lists a b (slice_index_or lists a [] ++ slice_index_or lists b [])) }
{
    let later = members.remove(b);
    members[a].extend_from_slice(&later)?;
    Ok(())
}
