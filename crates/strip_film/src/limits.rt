// The limits of a film, wide enough for any instance.

/// Maximum number of scenes, and of actors: a set is a mask of 64 bits.
pub const MAX_COUNT: usize = 64;

/// Greatest sum of the scenes' days: 200 scenes of 99 days.
pub const MAX_DAY_SUM: u64 = 19_800;

/// Greatest sum of the actors' rates, and of their hold rates, in units of money: 64 actors of 1,000,000,000.
pub const MAX_RATE_SUM: u64 = 64_000_000_000;
