// Files and a sink that never fail.
ghost use Rattle.std.specs.Prelude.{◌≡◌, ◌≢◌, ℕ, ◌+◌, ◌-◌, ◌^◌, ◌<◌, ◌≤◌, min, true, List, [], length, Some, None, Ok, IfOk, OnOk, OnErr};
ghost use Rattle.std.specs.Option.{unwrap_or};
ghost use Rattle.strip_io.specs.Counts.{CameOnly};
ghost use Rattle.strip_io.specs.Files.{CopiesFrom, files_data};
ghost use Rattle.strip_io.specs.Held.{bytes_of, bytes_or_empty, came_of, count_came, put};
ghost use Rattle.strip_io.specs.Sink.{sink_data};

use crate::table::{Table, copy_from};
use crate::{Failed, Files, Memory, Sink};
use std::alloc::Global;
use std::marker::Model;

/// Files in memory whose reads never fail. Every name is held: a name that was never added is an empty file.
#[derive(Drop)]
pub struct NoFaultFiles {
    files: Table,
}

impl Model for NoFaultFiles {
    ghost use Rattle.std.specs.Prelude.{List};
    ghost use Rattle.strip_io.specs.Held.{HeldFile};

    ghost Value = { List HeldFile };

    ghost view = { λ f. f.files };
}

impl NoFaultFiles {
    /// Makes a source without files. It allocates no memory.
    pub fn new(alloc: Global) -> NoFaultFiles
        ensures { result ≡ [] }
    {
        NoFaultFiles {
            files: Table::new(alloc),
        }
    }

    /// Stores these bytes under the name, in place of earlier ones. It fails only if memory runs out.
    #[tactic(auto, using(crate::proofs::Names::bytes_put, crate::proofs::Names::bytes_put_other))]
    pub fn add(&mut self, name: &str, bytes: &[u8]) -> Result<(), Memory>
        ensures ok { OnOk result (self.new ≡ put self.old name.now bytes.now) }
        ensures told { OnOk result (bytes_of self.new name.now ≡ Some bytes.now) }
        ensures others { OnOk result ((other : List ℕ) → other ≢ name.now
            → bytes_of self.new other ≡ bytes_of self.old other) }
        ensures err { OnErr result (self.new ≡ self.old) }
    {
        self.files.put(name, bytes)
    }
}

impl Files for NoFaultFiles {
    ghost state = { λ f. files_data (λ _. true) (bytes_or_empty f) (λ _. 0) (came_of f) };

    fn read(&mut self, name: &str, at: u64, into: &mut [u8]) -> Result<usize, Failed>
        requires room { 0 < length into.old }
        requires place { at ≤ 2 ^ 31 }

        ensures within { IfOk result (λ n. n ≤ length into.new) }
        ensures copied { IfOk result (λ n. CopiesFrom (unwrap_or (bytes_of self.old name.now) []) at n into.new) }
        ensures exact { result ≡ Ok (min (length into.old) (length (unwrap_or (bytes_of self.old name.now) []) - at)) }
        ensures told { bytes_or_empty self.new ≡ bytes_or_empty self.old }
        ensures came { IfOk result (λ n. CameOnly name.now n (came_of self.old) (came_of self.new)) }
        ensures counted { IfOk result (λ n. self.new ≡ count_came self.old name.now n) }
    {
        let text = self.files.bytes(name).unwrap_or(&[]);
        let count = copy_from(text, at as usize, into.len(), into);
        self.files.count_came(name, count);
        Ok(count)
    }
}

/// A sink that takes each piece whole, counts its bytes and keeps none of them.
#[derive(Drop)]
pub struct NoFaultSink {
    bytes: u64,
}

impl Model for NoFaultSink {
    ghost Value = { ℕ };

    ghost view = { λ s. s.bytes };
}

impl NoFaultSink {
    /// Makes a sink that has taken no bytes.
    pub fn new() -> NoFaultSink
        ensures { result ≡ 0 }
    {
        NoFaultSink { bytes: 0 }
    }

    /// Returns the number of bytes taken, at most 2^64 - 1.
    pub fn count(&self) -> u64
        ensures { result ≡ self.now }
    {
        self.bytes
    }
}

impl Default for NoFaultSink {
    ghost is_default = { λ s. s ≡ 0 };

    fn default() -> Self {
        NoFaultSink::new()
    }
}

impl Sink for NoFaultSink {
    ghost state = { λ _. sink_data None 0 };

    fn write(&mut self, piece: &[u8]) -> Result<usize, Failed>
        requires { 0 < length piece.now }
        ensures some { IfOk result (λ n. (0 < n) × (n ≤ length piece.now)) }
        ensures whole { result ≡ Ok (length piece.now) }
        ensures count { self.new ≡ min (self.old + length piece.now) (2 ^ 64 - 1) }
    {
        self.bytes = self.bytes.saturating_add(piece.len() as u64);
        Ok(piece.len())
    }
}
