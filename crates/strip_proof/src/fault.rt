// Faults of plan texts.
ghost use Rattle.std.specs.Prelude.{◌≡◌};
ghost use Rattle.strip_proof.specs.declared.fault.PlanFault.TheVariants.{Memory as OutOfMemory};

use std::alloc::{AllocError, AllocFailed};
use std::error::Error;
use std::fmt;
use strip_io::Memory;

/// A reason why no plan was read from a text. Rows are counted from 1, as in a spreadsheet.
#[derive(Clone, Copy, Debug, PartialEq, Eq)]
pub enum PlanFault {
    /// The row isn't the row that has to be there.
    BadRow { row: u64 },
    /// The text ends before this required row.
    Missing { which: u64 },
    /// The row of the order has a name that is no scene's name.
    UnknownScene { row: u64 },
    /// There are more than 16,777,216 lines.
    TooManyLines,
    /// Memory ran out.
    Memory,
}

impl From<AllocError> for PlanFault {
    ghost from_gives = { λ _ e. e ≡ OutOfMemory };

    fn from(_: AllocError) -> Self {
        PlanFault::Memory
    }
}

impl<T: Drop> From<AllocFailed<T>> for PlanFault {
    ghost from_gives = { λ _ e. e ≡ OutOfMemory };

    fn from(_: AllocFailed<T>) -> Self {
        PlanFault::Memory
    }
}

impl From<Memory> for PlanFault {
    ghost from_gives = { λ _ e. e ≡ OutOfMemory };

    fn from(_: Memory) -> Self {
        PlanFault::Memory
    }
}

/// Writes a sentence that says what is wrong, and where.
impl fmt::Display for PlanFault {
    ghost use Rattle.std.specs.Prelude.{Some};
    ghost use Rattle.strip_proof.specs.Told.{sentence};

    ghost output = { λ fault. Some (sentence fault) };

    fn fmt<W: fmt::Write>(&self, f: &mut fmt::Formatter<W>) -> fmt::Result {
        match self {
            PlanFault::BadRow { row } => write!(f, "row {row} isn't the row that is due there"),
            PlanFault::Missing { which } => write!(f, "row {which} is missing"),
            PlanFault::UnknownScene { row } => write!(f, "row {row}: no scene has such a name"),
            PlanFault::TooManyLines => f.write_str("there are too many lines"),
            PlanFault::Memory => f.write_str("out of memory"),
        }
    }
}

impl Error for PlanFault {}
