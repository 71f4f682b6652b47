// Faults that prevent a check.
ghost use Rattle.std.specs.Prelude.{◌≡◌};
ghost use Rattle.strip_check.specs.declared.fault.CheckFault.TheVariants.{Memory as OutOfMemory};
ghost use Rattle.strip_check.specs.Faults.{fault_of};

use strip_io::Memory;
use strip_reduce::ReduceFault;

/// A fault that prevents the check of a plan.
#[derive(Clone, Copy, Debug, PartialEq, Eq)]
pub enum CheckFault {
    /// The instance has `count` classes after the reduction, and a film has at most 64.
    TooManyClasses { count: u64 },
    /// Memory ran out.
    Memory,
}

impl From<Memory> for CheckFault {
    ghost from_gives = { λ _ e. e ≡ OutOfMemory };

    fn from(_: Memory) -> Self {
        CheckFault::Memory
    }
}

impl From<ReduceFault> for CheckFault {
    ghost from_gives = { λ fault e. e ≡ fault_of fault };

    fn from(fault: ReduceFault) -> Self {
        match fault {
            ReduceFault::TooManyClasses { count } => CheckFault::TooManyClasses { count },
            ReduceFault::Memory => CheckFault::Memory,
        }
    }
}
