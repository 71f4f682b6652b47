//! Laws of the table: functions that do nothing when they run, with theorems as contracts.
ghost use Rattle.std.specs.Prelude.{◌≡◌, ◌≢◌, ◌↔◌, ◌⊎◌, ℕ, ◌<◌, ◌≤◌, List, length, slice_set, Contains, Some, None};
ghost use Rattle.strip_film.specs.declared.shared.Known.{Known};
ghost use Rattle.strip_film.specs.declared.shared.Noted.{Noted};
ghost use Rattle.strip_film.specs.declared.shared.Noted.TheVariants.{Evicted};
ghost use Rattle.strip_table.specs.Home.{bucket_of, stripe_of};
ghost use Rattle.strip_table.specs.Bucket.{IsBucket, Puts, find_in};
ghost use Rattle.strip_table.specs.Stripe.{home};

/// Every set belongs to one of 16 stripes, and to one of the stripe's buckets.
pub fn sets_belong_to_a_bucket()
    ensures stripe { (set : ℕ) → stripe_of set < 16 }
    ensures bucket { (buckets set : ℕ) → 0 < buckets → bucket_of set buckets < buckets }
{}

/// A lookup of a set in a bucket finds exactly the set's entry.
pub fn the_entry_of_a_set_is_found()
    ensures { (buckets number : ℕ) (bucket : List Known) (set : ℕ) (entry : Known) → IsBucket buckets number bucket
        → (find_in bucket set ≡ Some entry) ↔ (Contains bucket entry × (entry.set ≡ set)) }
{}

/// An insertion has exactly one outcome: the new bucket and the answer.
pub fn a_put_has_one_outcome()
    ensures some { (bucket : List Known) (known : Known)
        → (after : List Known) × (answer : Noted) × Puts bucket known after answer }
    ensures one { (buckets number : ℕ) (bucket after other : List Known) (known : Known) (answer given : Noted)
        → IsBucket buckets number bucket
        → Puts bucket known after answer → Puts bucket known other given → (after ≡ other) × (answer ≡ given) }
{}

/// An insertion leaves a valid bucket. Each of its entries is the new line or was there before.
pub fn a_put_leaves_a_bucket()
    ensures bucket { (buckets number : ℕ) (bucket after : List Known) (known : Known) (answer : Noted)
        → IsBucket buckets number bucket
        → bucket_of known.set buckets ≡ number → Puts bucket known after answer → IsBucket buckets number after }
    ensures entries { (bucket after : List Known) (known entry : Known) (answer : Noted)
        → Puts bucket known after answer → Contains after entry → (entry ≡ known) ⊎ Contains bucket entry }
{}

/// After an insertion the entry of the set has at least the inserted bound. It is the new line, or was there before.
pub fn a_put_is_known_afterwards()
    ensures { (buckets number : ℕ) (bucket after : List Known) (known : Known) (answer : Noted)
        → IsBucket buckets number bucket
        → Puts bucket known after answer
        → (entry : Known) × (find_in after known.set ≡ Some entry) × (known.bound ≤ entry.bound)
        × ((entry ≡ known) ⊎ (find_in bucket known.set ≡ Some entry)) }
{}

/// An insertion keeps the entries of other sets, except for the one that the answer names as evicted from a full
/// bucket.
pub fn other_sets_keep_their_entries()
    ensures { (buckets number : ℕ) (bucket after : List Known) (known : Known) (answer : Noted) (set : ℕ)
        → IsBucket buckets number bucket
        → Puts bucket known after answer → set ≢ known.set
        → (find_in after set ≡ find_in bucket set)
        ⊎ ((length bucket ≡ 4) × (find_in after set ≡ None)
        × ((entry : Known) × (find_in bucket set ≡ Some entry) × (answer ≡ Evicted set entry.bound))) }
{}

/// An insertion keeps the entries of the sets of other buckets.
pub fn other_buckets_stay()
    ensures { (stripe new : List (List Known)) (known set : ℕ)
        → new ≡ slice_set stripe (bucket_of known (length stripe)) (home new known)
        → bucket_of set (length stripe) ≢ bucket_of known (length stripe) → home new set ≡ home stripe set }
{}
