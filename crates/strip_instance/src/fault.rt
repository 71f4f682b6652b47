// Faults of instance texts.
ghost use Rattle.std.specs.Prelude.{◌≡◌};
ghost use Rattle.strip_instance.specs.declared.fault.InstanceFault.TheVariants.{Memory as OutOfMemory};

use std::alloc::{AllocError, AllocFailed};
use std::error::Error;
use std::fmt;
use strip_io::Memory;

/// A reason why no instance was read from a text. Rows and columns are counted from 1, as in a spreadsheet.
#[derive(Debug, PartialEq, Eq, Drop)]
pub enum InstanceFault {
    /// There is no row.
    Empty,
    /// The first row doesn't begin with `scene` and `days`.
    BadHeader,
    /// There is no second row that begins with `rate`.
    NoRateRow,
    /// The row has another number of fields than the first.
    Width {
        row: u64,
    },
    /// The field is no name, or a scene's name is a reserved word.
    BadName {
        row: u64,
        col: u64,
    },
    /// The row has the name of an earlier scene.
    DuplicateScene {
        row: u64,
    },
    /// The column has the name of an earlier actor.
    DuplicateActor {
        col: u64,
    },
    /// The row's days are no number from 1 to 99.
    BadDays {
        row: u64,
    },
    /// The column's rate is no number from 0 to 1,000,000,000.
    BadRate {
        col: u64,
    },
    /// The column's hold rate is no number from 0 to 1,000,000,000.
    BadHold {
        col: u64,
    },
    /// The field is no mark.
    BadMark {
        row: u64,
        col: u64,
    },
    /// The row follows those of the scenes, but is no valid pair.
    BadBefore {
        row: u64,
    },
    /// The row's pair makes a cycle with earlier pairs. The names are those of the scenes along the shortest way from
    /// its second scene back to its first. Of several such ways it is the least by scene numbers.
    Cycle {
        row: u64,
        scenes: Vec<u16>,
        names: Vec<String>,
    },
    /// There is no scene.
    NoScene,
    /// There is a 201st scene.
    TooManyScenes,
    /// There is a 65th actor.
    TooManyActors,
    /// The name isn't UTF-8.
    NotUtf8 {
        row: u64,
        col: u64,
    },
    /// Memory ran out.
    Memory,
}

impl From<AllocError> for InstanceFault {
    ghost from_gives = { λ _ e. e ≡ OutOfMemory };

    fn from(_: AllocError) -> Self {
        InstanceFault::Memory
    }
}

impl<T: Drop> From<AllocFailed<T>> for InstanceFault {
    ghost from_gives = { λ _ e. e ≡ OutOfMemory };

    fn from(_: AllocFailed<T>) -> Self {
        InstanceFault::Memory
    }
}

impl From<Memory> for InstanceFault {
    ghost from_gives = { λ _ e. e ≡ OutOfMemory };

    fn from(_: Memory) -> Self {
        InstanceFault::Memory
    }
}

/// Writes a sentence that says what is wrong, and where.
impl fmt::Display for InstanceFault {
    ghost use Rattle.std.specs.Prelude.{Some};
    ghost use Rattle.strip_instance.specs.Fault.{fault_data};
    ghost use Rattle.strip_instance.specs.Told.{sentence};

    ghost output = { λ fault. Some (sentence (fault_data fault)) };

    fn fmt<W: fmt::Write>(&self, f: &mut fmt::Formatter<W>) -> fmt::Result {
        match self {
            InstanceFault::Empty => f.write_str("there is no row"),
            InstanceFault::BadHeader => f.write_str("row 1 doesn't begin with scene,days"),
            InstanceFault::NoRateRow => f.write_str("there is no row of rates"),
            InstanceFault::Width { row } => write!(f, "row {row} has another width than row 1"),
            InstanceFault::BadName { row, col } => write!(f, "row {row}, column {col}: not a name"),
            InstanceFault::DuplicateScene { row } => write!(
                f,
                "row {row}: an earlier scene's name"
            ),
            InstanceFault::DuplicateActor { col } => {
                write!(f, "column {col}: an earlier actor's name")
            }
            InstanceFault::BadDays { row } => write!(f, "row {row}: not a number of days"),
            InstanceFault::BadRate { col } => write!(f, "column {col}: not a rate"),
            InstanceFault::BadHold { col } => write!(f, "column {col}: not a hold rate"),
            InstanceFault::BadMark { row, col } => write!(f, "row {row}, column {col}: not a mark"),
            InstanceFault::BadBefore { row } => write!(f, "row {row}: not a pair of scenes"),
            InstanceFault::Cycle { row, .. } => write!(
                f,
                "row {row}: scenes that must come before one another"
            ),
            InstanceFault::NoScene => f.write_str("there is no scene"),
            InstanceFault::TooManyScenes => f.write_str("there are too many scenes"),
            InstanceFault::TooManyActors => f.write_str("there are too many actors"),
            InstanceFault::NotUtf8 { row, col } => write!(f, "row {row}, column {col}: not UTF-8"),
            InstanceFault::Memory => f.write_str("out of memory"),
        }
    }
}

impl Error for InstanceFault {}
