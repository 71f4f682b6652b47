// The error of a reduction.
ghost use Rattle.std.specs.Prelude.{◌≡◌};
ghost use Rattle.strip_reduce.specs.declared.fault.ReduceFault.TheVariants.{Memory as OutOfMemory};

use std::alloc::AllocError;

/// The reason why an instance was not reduced to a film.
#[derive(Clone, Copy, Debug, PartialEq, Eq)]
pub enum ReduceFault {
    /// There are `count` classes, and a film has at most 64.
    TooManyClasses { count: u64 },
    /// Memory ran out.
    Memory,
}

impl From<AllocError> for ReduceFault {
    ghost from_gives = { λ _ e. e ≡ OutOfMemory };

    fn from(_: AllocError) -> Self {
        ReduceFault::Memory
    }
}
