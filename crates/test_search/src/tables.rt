// A stripe (shard) of the transposition table: sequences of insertions worked by hand, and the hash by long
// multiplication.

use std::test::Fail;
use strip_film::{Known, Noted};
use strip_table::{Stripe, bucket_of, stripe_of};

// A line's number, set and bound, and the expected answer to its insertion.
struct Put(u32, u64, u64, Noted);

static ONE_BUCKET: [Put; 7] = [
    Put(0, 3, 5, Noted::Fresh),
    Put(1, 1, 2, Noted::Fresh),
    Put(2, 4, 2, Noted::Fresh),
    Put(3, 6, 7, Noted::Fresh),
    Put(4, 7, 13, Noted::Evicted { set: 1, bound: 2 }),
    Put(5, 4, 1, Noted::Stays { bound: 2 }),
    Put(6, 4, 6, Noted::Raised),
];

#[test]
fn forgets_in_one_bucket(rt: HostRuntime) -> Result<(), Fail> {
    let mut stripe = Stripe::new(rt.alloc(), 1)?;
    assert!(&rt; stripe.find(0).is_none());
    assert!(&rt; answers(&mut stripe, &ONE_BUCKET));
    assert!(&rt; has_sets(&stripe, 0, &[3, 4, 6, 7]));
    assert!(&rt; has_entry(&stripe, 6, 4, 6));
    assert!(&rt; has_entry(&stripe, 4, 7, 13));
    assert!(&rt; stripe.find(1).is_none());
    Ok(())
}

// Sets 1 to 5 belong to bucket 1 of two, and 23 to 26 to bucket 0.
static TWO_BUCKETS: [Put; 8] = [
    Put(0, 1, 9, Noted::Fresh),
    Put(1, 2, 9, Noted::Fresh),
    Put(2, 3, 9, Noted::Fresh),
    Put(3, 4, 9, Noted::Fresh),
    Put(4, 23, 8, Noted::Fresh),
    Put(5, 24, 8, Noted::Fresh),
    Put(6, 5, 7, Noted::Evicted { set: 1, bound: 9 }),
    Put(7, 26, 8, Noted::Fresh),
];

#[test]
fn keeps_two_buckets_apart(rt: HostRuntime) -> Result<(), Fail> {
    let mut stripe = Stripe::new(rt.alloc(), 2)?;
    assert!(&rt; answers(&mut stripe, &TWO_BUCKETS));
    assert!(&rt; has_sets(&stripe, 0, &[23, 24, 26]));
    assert!(&rt; has_sets(&stripe, 1, &[2, 3, 4, 5]));
    assert!(&rt; has_entry(&stripe, 4, 23, 8));
    assert!(&rt; stripe.find(1).is_none());
    Ok(())
}

// These sets belong to bucket 1 of three. Sets 1 and 4 have one scene, 7 and 35 three, the others two.
static THREE_BUCKETS: [Put; 7] = [
    Put(0, 7, 1, Noted::Fresh),
    Put(1, 4, 2, Noted::Fresh),
    Put(2, 1, 3, Noted::Fresh),
    Put(3, 9, 4, Noted::Fresh),
    Put(4, 12, 5, Noted::Evicted { set: 4, bound: 2 }),
    Put(5, 20, 6, Noted::Evicted { set: 1, bound: 3 }),
    Put(6, 35, 7, Noted::Evicted { set: 9, bound: 4 }),
];

#[test]
fn the_first_of_equals_leaves(rt: HostRuntime) -> Result<(), Fail> {
    let mut stripe = Stripe::new(rt.alloc(), 3)?;
    assert!(&rt; answers(&mut stripe, &THREE_BUCKETS));
    assert!(&rt; has_sets(&stripe, 0, &[]));
    assert!(&rt; has_sets(&stripe, 1, &[7, 12, 20, 35]));
    assert!(&rt; has_sets(&stripe, 2, &[]));
    Ok(())
}

#[test]
fn four_million_entries_have_room(rt: HostRuntime) -> Result<(), Fail> {
    let mut stripe = Stripe::new(rt.alloc(), 1_048_576)?;
    assert!(&rt; stripe.buckets() == 1_048_576);
    assert!(&rt; stripe.find(0).is_none());
    assert!(&rt; answers(&mut stripe, &[Put(8, 0, 0, Noted::Fresh)]));
    assert!(&rt; has_entry(&stripe, 8, 0, 0));
    assert!(&rt; stripe.find(u64::MAX).is_none());
    Ok(())
}

#[test]
fn sets_have_the_stripe_and_bucket_of_their_hash(rt: HostRuntime) {
    assert!(&rt;
        stripe_of(0) == 0 && stripe_of(1) == 9 && stripe_of(2) == 3 && stripe_of(16) == 14
    );
    assert!(&rt; bucket_of(1, 2) == 1 && bucket_of(23, 2) == 0);
    assert!(&rt; bucket_of(3, 3) == 0 && bucket_of(1, 3) == 1 && bucket_of(2, 3) == 2);
    assert!(&rt; stripe_of(u64::MAX) == 6 && bucket_of(u64::MAX, 65_536) == 25704);
}

fn answers(stripe: &mut Stripe, puts: &[Put]) -> bool {
    for put in puts {
        let Put(line, set, bound, answer) = *put;
        if stripe.put(&Known { line, set, bound }) != answer {
            return false;
        }
    }
    true
}

fn has_entry(stripe: &Stripe, line: u32, set: u64, bound: u64) -> bool {
    stripe.find(set) == Some(Known { line, set, bound })
}

fn has_sets(stripe: &Stripe, bucket: u32, sets: &[u64]) -> bool {
    if bucket >= stripe.buckets() {
        return false;
    }
    let entries = stripe.entries(bucket);
    if entries.len() != sets.len() || entries.get(sets.len()).is_some() {
        return false;
    }
    for place in 0..sets.len() {
        if !matches!(entries.get(place), Some(known) if known.set == sets[place]) {
            return false;
        }
    }
    true
}
