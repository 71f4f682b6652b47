// Files of a disk, and the output of the host. The bytes that a disk holds are not known to the proof.
ghost use Rattle.std.specs.Prelude.{◌≡◌, ◌↔◌, ℕ, ◌^◌, ◌<◌, ◌≤◌, true, false, [], ◌∷◌, ◌++◌, List, length, map, take, string_bytes, None, IfOk, OnOk, OnErr, IsErr, IsTrue, Contains};
ghost use Rattle.std.specs.Io.KnownBytes.{Appends, Keeps};
ghost use Rattle.strip_io.specs.Counts.{CameOnly, CountsOnly, ReadFailed, Rose};
ghost use Rattle.strip_io.specs.Files.{files_data};
ghost use Rattle.strip_io.specs.Disk.{opened_for, standing};
ghost use Rattle.strip_io.specs.Held.{came_of, count_came, count_fault, entry_of, faults_of, is_held, next_count};
ghost use Rattle.strip_io.specs.Sink.{sink_data};
ghost use Rattle.strip_io.specs.Streams.{IsReadOf};

use crate::open_file::{OpenFile, read_at};
use crate::table::Table;
use crate::tally::next_count;
use crate::{Disk, Failed, Files, Memory, Sink};
use std::alloc::Global;
use std::io;
use std::io::{Printer, Write};
use std::marker::Model;

/// The files of a disk whose names are in a given list; a name is a path. No other file is opened. The file that was
/// read last stays open, so a read at the offset reached goes on without a seek. Any error of the disk counts as a
/// failure of the name, and closes the file.
#[derive(Drop)]
pub struct HostFiles<D: Disk> {
    // The entries of the table have no bytes: these stay on the disk.
    words: Table,
    disk: D,
    current: Option<OpenFile<D::File>>,
    reads: u64,
}

impl<D: Disk> Model for HostFiles<D> {
    ghost use Rattle.strip_io.specs.Disk.{HostState};

    ghost Value = { HostState D D.File };

    ghost view = { λ f. record { held = f.words; disk = f.disk; current = f.current; reads = f.reads } };
}

impl<D: Disk + Drop> HostFiles<D> {
    /// Makes the files of the disk with these names. A repeated name counts once. No file is opened.
    pub fn new(alloc: Global, disk: D, words: &[String]) -> Result<HostFiles<D>, Memory>
        ensures words { IfOk result (λ f. (name : List ℕ) → IsTrue (is_held f.held name)
            ↔ Contains (map string_bytes words.now) name) }
        ensures unfailed { IfOk result (λ f. (name : List ℕ) → faults_of f.held name ≡ 0) }
        ensures none_came { IfOk result (λ f. (name : List ℕ) → came_of f.held name ≡ 0) }
        ensures disk { IfOk result (λ f. f.disk ≡ disk) }
        ensures none_open { IfOk result (λ f. f.current ≡ None) }
        ensures reads { IfOk result (λ f. f.reads ≡ 0) }
    {
        let mut table = Table::new(alloc);
        for word in words {
            table.put(word.as_str(), &[])?;
        }
        Ok(HostFiles {
            words: table,
            disk,
            current: None,
            reads: 0,
        })
    }
}

impl<D: Disk> Files for HostFiles<D> {
    ghost state = { λ f. files_data (is_held f.held) (λ _. None) (faults_of f.held) (came_of f.held) };

    ghost reads = { λ f. f.reads };

    fn read(&mut self, name: &str, at: u64, into: &mut [u8]) -> Result<usize, Failed>
        requires room { 0 < length into.old }
        requires place { at ≤ 2 ^ 31 }

        ensures within { IfOk result (λ n. n ≤ length into.new) }
        ensures cause { OnErr result (ReadFailed name.now (is_held self.old.held) (faults_of self.old.held)
            (faults_of self.new.held)) }
        ensures held { is_held self.new.held ≡ is_held self.old.held }
        ensures counts { CountsOnly name.now (faults_of self.old.held) (faults_of self.new.held) }
        ensures unfailed { OnOk result (faults_of self.new.held ≡ faults_of self.old.held) }
        ensures came { IfOk result (λ n. CameOnly name.now n (came_of self.old.held) (came_of self.new.held)) }
        ensures none_came { OnErr result (came_of self.new.held ≡ came_of self.old.held) }

        // The bytes come from the named file at this offset: from the open file if it stands there, else from a newly
        // opened one.
        ensures gave { IfOk result (λ n. IsReadOf D.File.stream_bytes D.File.stream_position D.File.remaining
            (standing (entry_of self.old.held name.now) at self.old.current) (entry_of self.old.held name.now) at n into.new
            self.new.current) }

        // If the open file can't be used, the named file is opened once, even if the read fails. If the name is not
        // held, none is opened. A failed read closes the file.
        ensures opened { is_held self.old.held name.now ≡ true → D.opened self.new.disk ≡ D.opened self.old.disk
            ++ opened_for (standing (entry_of self.old.held name.now) at self.old.current) name.now }
        ensures unopened { is_held self.old.held name.now ≡ false
            → (self.new.disk ≡ self.old.disk) × (self.new.current ≡ self.old.current) }
        ensures closed { is_held self.old.held name.now ≡ true → OnErr result (self.new.current ≡ None) }

        ensures unheld { is_held self.old.held name.now ≡ false → IsErr result }
        ensures counted { self.new.reads ≡ next_count self.old.reads }
        ensures ok { IfOk result (λ n. self.new.held ≡ count_came self.old.held name.now n) }
        ensures err { OnErr result (self.new.held ≡ count_fault self.old.held name.now) }
    {
        self.reads = next_count(self.reads);
        let Some((entry, own)) = self.words.own_name(name) else {
            return Err(Failed);
        };
        let current = self.current.take();
        let Ok((file, count)) = read_at(&mut self.disk, current, own, entry, at, into) else {
            self.words.count_fault(name);
            return Err(Failed);
        };
        self.current = Some(file);
        self.words.count_came(name, count);
        Ok(count)
    }
}

/// A sink over a writer, as the host's standard output. A write that fails or accepts no byte counts as a failure.
/// Writing allocates no memory.
#[derive(Drop)]
pub struct HostSink<W> {
    writer: W,
    faults: u64,
}

impl<W> Model for HostSink<W> {
    ghost use Rattle.strip_io.specs.Streams.{WriterState};

    ghost Value = { WriterState W };

    ghost view = { λ s. record { writer = s.writer; faults = s.faults } };
}

impl<'r, R: io::Print> HostSink<Printer<'r, R>> {
    /// Makes a sink over the host's standard output.
    pub fn new(host: &'r R) -> HostSink<Printer<'r, R>>
        ensures { result.faults ≡ 0 }
    {
        HostSink::over(io::writer(host))
    }
}

impl<W: Write> HostSink<W> {
    /// Makes a sink over this writer.
    pub fn over(writer: W) -> HostSink<W>
        ensures { result ≡ record { writer = writer; faults = 0 } }
    {
        HostSink { writer, faults: 0 }
    }

    /// Returns the writer.
    pub fn into_inner(self) -> W
        ensures { result ≡ self.writer }
    {
        self.writer
    }
}

impl<W: Write> Sink for HostSink<W> {
    ghost state = { λ s. sink_data None s.faults };

    fn write(&mut self, piece: &[u8]) -> Result<usize, Failed>
        requires { 0 < length piece.now }

        ensures some { IfOk result (λ n. (0 < n) × (n ≤ length piece.now)) }
        ensures cause { OnErr result (Rose self.old.faults self.new.faults) }
        ensures later { self.old.faults ≤ self.new.faults }
        ensures unfailed { OnOk result (self.new.faults ≡ self.old.faults) }

        // On success the writer got the returned number of bytes and no others, if its contents are observable.
        ensures appended { IfOk result (λ n. Appends (W.contents self.old.writer) (W.contents self.new.writer)
            (take n piece.now)) }
        ensures kept { OnErr result (Keeps (W.contents self.old.writer) (W.contents self.new.writer)) }

        ensures err { OnErr result (self.new.faults ≡ next_count self.old.faults) }
    {
        // A write of zero bytes counts as a failure, so that the loop in `send` terminates.
        match self.writer.write(piece) {
            Ok(count) if count > 0 => Ok(count),
            _ => {
                self.faults = next_count(self.faults);
                Err(Failed)
            }
        }
    }
}
