// The trait of files by name, and its errors.
ghost use Rattle.std.specs.Prelude.{◌≡◌, ℕ, ◌+◌, ◌^◌, ◌<◌, ◌≤◌, List, length, Some, IfOk, OnOk, OnErr, codes};
ghost use Rattle.strip_io.specs.Counts.{CameOnly, CountsOnly, ReadFailed};
ghost use Rattle.strip_io.specs.Files.{CopiesFrom, FilesData};

use std::alloc::{AllocError, AllocFailed};
use std::error::Error;
use std::fmt;

/// The error of a read or a write.
#[derive(Clone, Copy, Debug, PartialEq, Eq)]
pub struct Failed;

impl fmt::Display for Failed {
    ghost output = { λ _. Some (codes "a read or a write failed") };

    fn fmt<W: fmt::Write>(&self, f: &mut fmt::Formatter<W>) -> fmt::Result {
        f.write_str("a read or a write failed")
    }
}

impl Error for Failed {}

/// The error of an allocation.
#[derive(Clone, Copy, Debug, PartialEq, Eq)]
pub struct Memory;

impl From<AllocError> for Memory {
    ghost from_gives = { λ _ e. e ≡ record {} };

    fn from(_: AllocError) -> Self {
        Memory
    }
}

impl<T: Drop> From<AllocFailed<T>> for Memory {
    ghost from_gives = { λ _ e. e ≡ record {} };

    fn from(_: AllocFailed<T>) -> Self {
        Memory
    }
}

impl fmt::Display for Memory {
    ghost output = { λ _. Some (codes "out of memory") };

    fn fmt<W: fmt::Write>(&self, f: &mut fmt::Formatter<W>) -> fmt::Result {
        f.write_str("out of memory")
    }
}

impl Error for Memory {}

/// A source of files by name. Contracts see a name as its bytes.
pub trait Files {
    /// The current state: which names are held, their bytes if these are known, and two counts for each name. The
    /// counts are of failed reads and of bytes that reads returned.
    ghost state: { Self → FilesData };

    /// The number of reads so far over all names, or 0 if the implementation does not count them.
    ghost reads: { Self → ℕ } = { λ _. 0 };

    /// Copies bytes of the named file from offset `at` on to the front of `into`, and returns their number. The number
    /// is 0 only at the end of the file. The contents of `into` behind the copied bytes are unspecified.
    fn read(&mut self, name: &str, at: u64, into: &mut [u8]) -> Result<usize, Failed>
        requires room { 0 < length into.old }
        requires place { at ≤ 2 ^ 31 }

        ensures within { IfOk result (λ n. n ≤ length into.new) }
        ensures copied { IfOk result (λ n. (text : List ℕ) → (state self.old).bytes name.now ≡ Some text
            → CopiesFrom text at n into.new) }

        // A read fails only if the name is not held, or if its count of failures rose in this call. So no failure is
        // uncounted.
        ensures cause { OnErr result (ReadFailed name.now (state self.old).holds (state self.old).faults
            (state self.new).faults) }

        ensures held { (state self.new).holds ≡ (state self.old).holds }
        ensures told { (state self.new).bytes ≡ (state self.old).bytes }
        ensures counts { CountsOnly name.now (state self.old).faults (state self.new).faults }

        // A successful read leaves the counts of failures as they are; a failed read returns no bytes.
        ensures unfailed { OnOk result ((state self.new).faults ≡ (state self.old).faults) }
        ensures came { IfOk result (λ n. CameOnly name.now n (state self.old).came (state self.new).came) }
        ensures none_came { OnErr result ((state self.new).came ≡ (state self.old).came) }
        ensures one_read { reads self.new ≤ reads self.old + 1 };
}
