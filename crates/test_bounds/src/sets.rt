// Iteration over sets of numbers.
use strip_mask::{Mask, sum_over};

/// Tells whether the iteration over the set gives these numbers, in this order.
fn goes_over(set: Mask, numbers: &[u32]) -> bool {
    if set.size() as usize != numbers.len() || set.iter().count() != numbers.len() {
        return false;
    }
    for (number, expected) in set.into_iter().zip(numbers) {
        if number != *expected {
            return false;
        }
    }
    set.first() == numbers.first().copied()
}

#[test]
fn goes_over_a_set(rt: HostRuntime) {
    let set = Mask(0b101101);
    assert!(&rt; goes_over(set, &[0, 2, 3, 5]));
    let values = [1, 2, 4, 8, 16, 32];
    assert!(&rt; sum_over(&values, set) == 45);
}

#[test]
fn goes_over_all_numbers(rt: HostRuntime) {
    let set = Mask(u64::MAX);
    let mut numbers = [0; 64];
    for number in 0..64 {
        numbers[number] = number as u32;
    }
    assert!(&rt; goes_over(set, &numbers));
    let values = [3; 64];
    assert!(&rt; sum_over(&values, set) == 192);
}
