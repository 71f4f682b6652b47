// Files in memory, with failures at chosen reads.
ghost use Rattle.std.specs.Prelude.{◌≡◌, ◌≢◌, ◌⊎◌, ◌↔◌, ℕ, ◌+◌, ◌-◌, ◌^◌, ◌<◌, ◌≤◌, min, false, List, [], length, Some, IfOk, OnOk, OnErr, IsErr, Contains};
ghost use Rattle.strip_io.specs.Counts.{CameOnly, CountsOnly, ReadFailed};
ghost use Rattle.strip_io.specs.Files.{CopiesFrom};
ghost use Rattle.strip_io.specs.Held.{bytes_of, came_of, count_came, count_fault, faults_of, held_data, is_held, next_count, put};

use crate::table::{Table, copy_from};
use crate::tally::next_count;
use crate::{Failed, Files, Memory};
use std::alloc::Global;
use std::marker::Model;

/// Files in memory. A read fails if its number, counted from 1 over all names, is in the given list, or if its name is
/// not held.
#[derive(Drop)]
pub struct MemFiles {
    files: Table,
    piece: usize,
    failing: Vec<u64>,
    calls: u64,
}

impl Model for MemFiles {
    ghost use Rattle.std.specs.Prelude.{◌≤◌};
    ghost use Rattle.strip_io.specs.Memory.{MemoryFiles};

    ghost Value = { MemoryFiles };

    ghost view = { λ m. record { files = m.files; piece = m.piece; failing = m.failing.items; calls = m.calls } };

    ghost invariant = { λ m. 1 ≤ m.piece };
}

impl MemFiles {
    /// Makes a source without files, whose reads return as many bytes as fit. The reads with the numbers in `failing`
    /// will fail.
    pub fn new(alloc: Global, failing: &[u64]) -> Result<MemFiles, Memory>
        ensures { IfOk result (λ m. m ≡ record { files = []; piece = 2 ^ 64 - 1; failing = failing.now; calls = 0 }) }
    {
        MemFiles::short(alloc, usize::MAX, failing)
    }

    /// Makes a source without files, whose reads return at most `piece` bytes each. The reads with the numbers in
    /// `failing` will fail.
    pub fn short(alloc: Global, piece: usize, failing: &[u64]) -> Result<MemFiles, Memory>
        requires { 1 ≤ piece }
        ensures { IfOk result (λ m. m ≡ record { files = []; piece = piece; failing = failing.now; calls = 0 }) }
    {
        Ok(MemFiles {
            files: Table::new(alloc),
            piece,
            failing: Vec::from_slice(alloc, failing)?,
            calls: 0,
        })
    }

    /// Stores these bytes under the name, in place of earlier ones. A new name begins with counts of 0; a held one
    /// keeps its counts. It fails only if memory runs out.
    #[tactic(auto, using(crate::proofs::Names::bytes_put, crate::proofs::Names::bytes_put_other, crate::proofs::Names::faults_put, crate::proofs::Names::came_put))]
    pub fn add(&mut self, name: &str, bytes: &[u8]) -> Result<(), Memory>
        ensures ok { OnOk result (self.new ≡ record self.old { files = put self.old.files name.now bytes.now }) }
        ensures told { OnOk result (bytes_of self.new.files name.now ≡ Some bytes.now) }
        ensures others { OnOk result ((other : List ℕ) → other ≢ name.now
            → bytes_of self.new.files other ≡ bytes_of self.old.files other) }
        ensures counts { OnOk result ((other : List ℕ)
            → faults_of self.new.files other ≡ faults_of self.old.files other) }
        ensures came { OnOk result ((other : List ℕ) → came_of self.new.files other ≡ came_of self.old.files other) }
        ensures err { OnErr result (self.new ≡ self.old) }
    {
        self.files.put(name, bytes)
    }
}

impl Files for MemFiles {
    ghost state = { λ m. held_data m.files };

    ghost reads = { λ m. m.calls };

    fn read(&mut self, name: &str, at: u64, into: &mut [u8]) -> Result<usize, Failed>
        requires room { 0 < length into.old }
        requires place { at ≤ 2 ^ 31 }

        ensures within { IfOk result (λ n. n ≤ length into.new) }
        ensures copied { IfOk result (λ n. (text : List ℕ) → bytes_of self.old.files name.now ≡ Some text
            → CopiesFrom text at n into.new) }
        ensures cause { OnErr result (ReadFailed name.now (is_held self.old.files) (faults_of self.old.files)
            (faults_of self.new.files)) }
        ensures held { is_held self.new.files ≡ is_held self.old.files }
        ensures told { bytes_of self.new.files ≡ bytes_of self.old.files }
        ensures counts { CountsOnly name.now (faults_of self.old.files) (faults_of self.new.files) }
        ensures unfailed { OnOk result (faults_of self.new.files ≡ faults_of self.old.files) }
        ensures came { IfOk result (λ n. CameOnly name.now n (came_of self.old.files) (came_of self.new.files)) }
        ensures none_came { OnErr result (came_of self.new.files ≡ came_of self.old.files) }
        ensures one_read { self.new.calls ≤ self.old.calls + 1 }

        // A read fails exactly at the listed calls and at names that are not held.
        ensures fails { IsErr result ↔ (Contains self.old.failing (next_count self.old.calls)
            ⊎ (is_held self.old.files name.now ≡ false)) }
        ensures exact { IfOk result (λ n. (text : List ℕ) → bytes_of self.old.files name.now ≡ Some text
            → n ≡ min self.old.piece (min (length into.old) (length text - at))) }

        ensures ok { IfOk result (λ n. self.new.files ≡ count_came self.old.files name.now n) }
        ensures err { OnErr result (self.new.files ≡ count_fault self.old.files name.now) }
        ensures calls { self.new.calls ≡ next_count self.old.calls }
        ensures piece { self.new.piece ≡ self.old.piece }
        ensures failing { self.new.failing ≡ self.old.failing }
    {
        self.calls = next_count(self.calls);
        if self.failing.contains(&self.calls) {
            self.files.count_fault(name);
            return Err(Failed);
        }
        let Some(text) = self.files.bytes(name) else {
            return Err(Failed);
        };
        let count = copy_from(text, at as usize, self.piece, into);
        self.files.count_came(name, count);
        Ok(count)
    }
}
