// Work-stealing queues of a pool: each taker empties its own queue first, and gets each number once.
ghost use Rattle.std.specs.Prelude.{◌≡◌, ◌≤◌, ℕ, IfOk};
ghost use Rattle.strip_steal.specs.Rule.{times};
ghost use Rattle.strip_steal.specs.Taker.{IsTaker, taker_queues};

use std::alloc::{AllocError, Global};
use std::sync::Wait;
use std::test::Fail;
use std::thread;
use std::thread::Threads;
use strip_steal::{Taken, Taker, pool};

/// Returns the numbers from 1 to `last`.
fn numbers(alloc: Global, last: u32) -> Result<Vec<u32>, AllocError>
    ensures { IfOk result (λ numbers. (number : ℕ) → times number numbers.items ≤ 1) }
{
    let mut numbers = Vec::new(alloc);
    for before in 0..last {
        numbers.push(before + 1)?;
    }
    Ok(numbers)
}

/// Returns the number at this place, from the queue at this place, or none beyond the last one.
fn expected(numbers: &[u32], queues: &[u32], place: usize) -> Option<Taken> {
    let number = *numbers.get(place)?;
    let from = *queues.get(place)?;
    Some(Taken { number, from })
}

/// Tells whether the answers are these numbers, each from the queue at its place, and then none.
fn are_answers(answers: &[Option<Taken>], numbers: &[u32], queues: &[u32]) -> bool {
    answers.iter().enumerate().all(|(place, answer)| *answer == expected(numbers, queues, place))
}

/// Tells whether a list has these numbers, each from the queue at its place.
fn is_list(list: &[Taken], numbers: &[u32], queues: &[u32]) -> bool {
    list.len() == numbers.len()
        && list.iter().enumerate().all(|(place, one)| Some(*one)
            == expected(numbers, queues, place))
}

/// Tells whether the first of two takers gets all five numbers, and then the second gets none.
fn first_is_given_all<R: Wait>(rt: &R, alloc: Global) -> Result<bool, Fail> {
    let numbers = numbers(alloc, 5)?;
    let mut queues = pool(alloc, 2, numbers.as_slice())?;
    let mut first = queues.taker(alloc, 0)?;
    let mut second = queues.taker(alloc, 1)?;
    let mut answers = Vec::new(alloc);
    for _turn in 0..7 {
        answers.push(first.take(rt))?;
    }
    answers.push(second.take(rt))?;
    let firsts = queues.gather(first);
    let seconds = queues.gather(second);
    Ok(
        answers.len() == 8
            && are_answers(&answers, &[1, 3, 5, 2, 4], &[0, 0, 0, 1, 1])
            && is_list(&firsts, &[1, 3, 5, 2, 4], &[0, 0, 0, 1, 1])
            && seconds.is_empty(),
    )
}

// The first queue has 1, 3 and 5, and the second one 2 and 4.
#[test]
fn a_taker_is_given_what_others_left(rt: HostRuntime) -> Result<(), Fail> {
    assert!(&rt; first_is_given_all(&rt, rt.alloc())?);
    Ok(())
}

/// Tells whether each of three takers gets the numbers of its own queue first, and then those that are left. They are
/// gathered in another order than that of their queues.
fn three_take_in_turn<R: Wait>(rt: &R, alloc: Global) -> Result<bool, Fail> {
    let numbers = numbers(alloc, 7)?;
    let mut queues = pool(alloc, 3, numbers.as_slice())?;
    let mut first = queues.taker(alloc, 0)?;
    let mut second = queues.taker(alloc, 1)?;
    let mut third = queues.taker(alloc, 2)?;
    let mut answers = Vec::new(alloc);
    for _turn in 0..4 {
        answers.push(first.take(rt))?;
        answers.push(second.take(rt))?;
        answers.push(third.take(rt))?;
    }
    let thirds = queues.gather(third);
    let firsts = queues.gather(first);
    let seconds = queues.gather(second);
    Ok(
        answers.len() == 12
            && are_answers(&answers, &[1, 2, 3, 4, 5, 6, 7], &[0, 1, 2, 0, 1, 2, 0])
            && is_list(&firsts, &[1, 4, 7], &[0, 0, 0])
            && is_list(&seconds, &[2, 5], &[1, 1])
            && is_list(&thirds, &[3, 6], &[2, 2]),
    )
}

// The first queue has 1, 4 and 7, the second one 2 and 5, and the third one 3 and 6.
#[test]
fn takers_in_turn_are_given_their_own_numbers(rt: HostRuntime) -> Result<(), Fail> {
    assert!(&rt; three_take_in_turn(&rt, rt.alloc())?);
    Ok(())
}

/// Takes until the queues are empty.
fn take_all<R: Wait>(rt: &R, taker: Taker) -> Taker
    requires { IsTaker taker }
    ensures taker { IsTaker result }
    ensures same { taker_queues result ≡ taker_queues taker }
{
    let mut taker = taker;
    for _turn in rt.forever() {
        if taker.take(rt).is_none() {
            break;
        }
    }
    taker
}

/// Both take until the queues are empty, each in a thread of its own.
fn both_take_all<R: Threads + Wait + Sync>(rt: &R, first: Taker, second: Taker) -> (Taker, Taker)
    requires first { IsTaker first }
    requires second { IsTaker second }
    ensures first { IsTaker result.0 × (taker_queues result.0 ≡ taker_queues first) }
    ensures second { IsTaker result.1 × (taker_queues result.1 ≡ taker_queues second) }
{
    thread::join(
        rt,
        move ||
            requires { IsTaker first }
            ensures { IsTaker result × (taker_queues result ≡ taker_queues first) }
        { take_all(rt, first) },
        move ||
            requires { IsTaker second }
            ensures { IsTaker result × (taker_queues result ≡ taker_queues second) }
        { take_all(rt, second) },
    )
}

/// Tells whether the lists have each number from 1 to `last` once, and no other.
fn have_each_once(
    alloc: Global,
    last: u32,
    firsts: &[Taken],
    seconds: &[Taken],
) -> Result<bool, AllocError> {
    let mut numbers = Vec::new(alloc);
    for one in firsts.iter().chain(seconds) {
        numbers.push(one.number)?;
    }
    numbers.sort_unstable();
    Ok(
        numbers.len() == last as usize
            && (1..=last)
                .zip(&numbers)
                .all(|(wanted, number)| wanted == *number),
    )
}

/// Tells whether two takers, in a thread each, get each of two hundred numbers once.
fn two_are_given_each_once<R: Threads + Wait + Sync>(rt: &R, alloc: Global) -> Result<bool, Fail> {
    let numbers = numbers(alloc, 200)?;
    let mut queues = pool(alloc, 2, numbers.as_slice())?;
    let first = queues.taker(alloc, 0)?;
    let second = queues.taker(alloc, 1)?;
    let (first, second) = both_take_all(rt, first, second);
    let firsts = queues.gather(first);
    let seconds = queues.gather(second);
    let each_once = have_each_once(alloc, 200, &firsts, &seconds)?;
    Ok(each_once)
}

#[test]
fn two_threads_are_given_each_number_once(rt: HostRuntime) -> Result<(), Fail> {
    assert!(&rt; two_are_given_each_once(&rt, rt.alloc())?);
    Ok(())
}
