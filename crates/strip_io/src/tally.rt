// Counts that saturate.
ghost use Rattle.std.specs.Prelude.{◌≡◌};
ghost use Rattle.strip_io.specs.Held.{next_count};

// Returns the count plus one, or the greatest `u64` if the count has reached it.
pub(crate) fn next_count(count: u64) -> u64
    ensures { result ≡ next_count count }
{
    count.saturating_add(1)
}
