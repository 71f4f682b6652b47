// The stripe and the bucket of a set, by hashing.
ghost use Rattle.std.specs.Prelude.{◌≡◌, ℕ, ◌<◌};
ghost use Rattle.strip_table.specs.Home.{bucket_of, hash, stripe_of};

/// Number of stripes of a table.
pub const STRIPES: u32 = 16;

const MULTIPLIER: u64 = 0x9E37_79B9_7F4A_7C15;

fn hash(set: u64) -> u64
    ensures { result ≡ hash set }
{
    set.wrapping_mul(MULTIPLIER)
}

/// Returns the stripe of the set, a number below 16.
pub fn stripe_of(set: u64) -> u32
    ensures stripe { result ≡ stripe_of set }
    ensures below { result < STRIPES }
{
    (hash(set) >> 60) as u32
}

/// Returns the bucket of the set in a stripe of `buckets` buckets, at least 1. The result is below `buckets`.
pub fn bucket_of(set: u64, buckets: u32) -> u32
    requires { 0 < buckets }
    ensures bucket { result ≡ bucket_of set buckets }
    ensures below { result < buckets }
{
    ((hash(set) >> 28) % (1 << 32)) as u32 % buckets
}
