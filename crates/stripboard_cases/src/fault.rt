// Faults of case files.
use std::alloc::{AllocError, AllocFailed};
use std::fmt;
use strip_io::Memory;

/// A fault of a row of a case file, or lack of memory.
#[derive(Clone, Copy, PartialEq, Eq, Debug)]
pub enum Wrong {
    /// The file is missing, or is longer than a case file may be.
    Unread,
    NotUtf8,
    /// The row begins with an unknown word.
    Head,
    /// The row isn't allowed here.
    Place,
    /// The row has too few words, too many, or words that aren't allowed.
    Words,
    /// An unknown escape, or one without an end.
    Escape,
    /// A number is required, or a number within its limits.
    Number,
    /// The case has no step.
    NoStep,
    /// The step has no status.
    NoStatus,
    /// An expanded text is too long, or there are too many cases.
    TooLong,
    Memory,
}

/// The first fault of a case file, with its row, counted from 1.
#[derive(Clone, Copy, PartialEq, Eq, Debug)]
pub struct CaseFault {
    pub row: u64,
    pub wrong: Wrong,
}

impl Wrong {
    pub(crate) fn at(self, row: u64) -> CaseFault {
        CaseFault { row, wrong: self }
    }

    fn text(self) -> &'static str {
        match self {
            Wrong::Unread => "the file can't be read",
            Wrong::NotUtf8 => "the row isn't UTF-8",
            Wrong::Head => "no row begins so",
            Wrong::Place => "the row can't stand here",
            Wrong::Words => "too few words, too many, or others",
            Wrong::Escape => "no such escape",
            Wrong::Number => "no number that may stand here",
            Wrong::NoStep => "the case has no step",
            Wrong::NoStatus => "the step has no status",
            Wrong::TooLong => "too long",
            Wrong::Memory => "out of memory",
        }
    }
}

impl fmt::Display for CaseFault {
    fn fmt<W: fmt::Write>(&self, f: &mut fmt::Formatter<W>) -> fmt::Result {
        let row = self.row;
        let wrong = self.wrong.text();
        write!(f, "row {row}: {wrong}")
    }
}

impl From<AllocError> for Wrong {
    fn from(_: AllocError) -> Wrong {
        Wrong::Memory
    }
}

impl<T: Drop> From<AllocFailed<T>> for Wrong {
    fn from(_: AllocFailed<T>) -> Wrong {
        Wrong::Memory
    }
}

impl From<Memory> for Wrong {
    fn from(_: Memory) -> Wrong {
        Wrong::Memory
    }
}
