/// Maximum number of actors of an instance.
pub const MAX_ACTORS: usize = 64;

/// Maximum number of bytes of a name. The minimum is 1.
pub const MAX_NAME: usize = 64;

/// Maximum number of days of a scene. The minimum is 1.
pub const MAX_DAYS: u64 = 99;

/// Greatest rate for a day, of work or of waiting, in units of money.
pub const MAX_RATE: u64 = 1_000_000_000;
