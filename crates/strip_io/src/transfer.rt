// Loading whole files, and sending whole texts.
ghost use Rattle.std.specs.Prelude.{◌≡◌, ◌≢◌, ℕ, ◌+◌, ◌^◌, ◌<◌, ◌≤◌, List, length, vec_len, Some, Err, IfOk, OnOk, OnErr};
ghost use Rattle.strip_io.specs.declared.transfer.LoadFault.TheVariants.{Read, Memory as OutOfMemory};
ghost use Rattle.strip_io.specs.Counts.{CameAtLeast, CameOnly, CountsOnly, ReadFailed, Rose};
ghost use Rattle.strip_io.specs.Sink.{Took, TookFront};

use crate::{Failed, Files, Sink};
use std::alloc::{AllocError, Global};
use std::error::Error;
use std::fmt;

/// The reason why a file was not loaded.
#[derive(Clone, Copy, Debug, PartialEq, Eq)]
pub enum LoadFault {
    /// A read failed, or the name is not held.
    Read,
    /// The file has more bytes than the limit.
    TooLong,
    /// Memory ran out.
    Memory,
}

impl From<AllocError> for LoadFault {
    ghost from_gives = { λ _ e. e ≡ OutOfMemory };

    fn from(_: AllocError) -> Self {
        LoadFault::Memory
    }
}

impl From<Failed> for LoadFault {
    ghost from_gives = { λ _ e. e ≡ Read };

    fn from(_: Failed) -> Self {
        LoadFault::Read
    }
}

impl fmt::Display for LoadFault {
    ghost use Rattle.strip_io.specs.Load.{fault_text};

    ghost output = { λ fault. Some (fault_text fault) };

    fn fmt<W: fmt::Write>(&self, f: &mut fmt::Formatter<W>) -> fmt::Result {
        f.write_str(match self {
            LoadFault::Read => "a file couldn't be read",
            LoadFault::TooLong => "a file is too long",
            LoadFault::Memory => "out of memory",
        })
    }
}

impl Error for LoadFault {}

/// Number of bytes requested in one read.
const PIECE: usize = 65_536;

/// Loads the whole file of a name, by at most `limit + 1` reads. A file of more than `limit` bytes is refused. A failed
/// read is not tried again.
pub fn load<F: Files>(
    alloc: Global,
    files: &mut F,
    name: &str,
    limit: u64,
) -> Result<Vec<u8>, LoadFault>
    requires { limit ≤ 2 ^ 30 }

    ensures all { IfOk result (λ v. (text : List ℕ) → (F.state files.old).bytes name.now ≡ Some text → v.items ≡ text) }
    ensures short { IfOk result (λ v. vec_len v ≤ limit) }

    ensures too_long { result ≡ Err LoadFault.TooLong → (text : List ℕ)
        → (F.state files.old).bytes name.now ≡ Some text → limit < length text }
    ensures read { result ≡ Err LoadFault.Read
        → ReadFailed name.now (F.state files.old).holds (F.state files.old).faults (F.state files.new).faults }

    ensures held { (F.state files.new).holds ≡ (F.state files.old).holds }
    ensures told { (F.state files.new).bytes ≡ (F.state files.old).bytes }
    ensures counts { CountsOnly name.now (F.state files.old).faults (F.state files.new).faults }
    ensures unfailed { result ≢ Err LoadFault.Read → (F.state files.new).faults ≡ (F.state files.old).faults }

    // These clauses hold even if the file's bytes are not known: they tell the number of bytes that the reads returned.
    // On success it is the result's length, and `TooLong` means that it exceeds the limit.
    ensures came { IfOk result (λ v. CameOnly name.now (vec_len v) (F.state files.old).came (F.state files.new).came) }
    ensures too_many { result ≡ Err LoadFault.TooLong
        → CameAtLeast (limit + 1) ((F.state files.old).came name.now) ((F.state files.new).came name.now) }
    ensures reads { F.reads files.new ≤ F.reads files.old + (limit + 1) }
    ensures none_else { (other : List ℕ) → other ≢ name.now
        → (F.state files.new).came other ≡ (F.state files.old).came other }
{
    let mut all = Vec::new(alloc);
    let mut piece = vec![in alloc; 0; PIECE]?;
    for _turn in 0..limit + 1 {
        let count = files.read(name, all.len() as u64, &mut piece)?;
        if count == 0 {
            return Ok(all);
        }
        if (all.len() + count) as u64 > limit {
            return Err(LoadFault::TooLong);
        }
        all.extend_from_slice(&piece[..count])?;
    }
    unreachable!()
}

/// Writes the whole text, in as many pieces as the sink needs. It allocates no memory.
pub fn send<S: Sink>(out: &mut S, text: &[u8]) -> Result<(), Failed>
    ensures ok { OnOk result (Took (S.state out.old).taken (S.state out.new).taken text.now) }
    ensures cause { OnErr result (Rose (S.state out.old).faults (S.state out.new).faults) }
    ensures front { OnErr result (TookFront (S.state out.old).taken (S.state out.new).taken text.now) }
    ensures later { (S.state out.old).faults ≤ (S.state out.new).faults }
    ensures unfailed { OnOk result ((S.state out.new).faults ≡ (S.state out.old).faults) }
{
    let mut rest = text;
    while !rest.is_empty() {
        let count = out.write(rest)?;
        rest = &rest[count..];
    }
    Ok(())
}
