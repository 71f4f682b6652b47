// The open file of a disk.
ghost use Rattle.std.specs.Prelude.{◌≡◌, ◌+◌, ◌^◌, ◌<◌, ◌≤◌, [], ◌∷◌, ◌++◌, length, string_bytes, IfOk};
ghost use Rattle.strip_io.specs.Disk.{opened_for, standing};
ghost use Rattle.strip_io.specs.Streams.{GaveFrom, StandsAt, WentOn};

use crate::Disk;
use std::io;
use std::io::{Read, Seek, SeekFrom};

/// An open file: the index of its name in the table, and the offset that its reads have reached.
#[derive(Drop)]
pub(crate) struct OpenFile<F> {
    pub entry: usize,
    pub at: u64,
    pub file: F,
}

impl<F: Read> OpenFile<F> {
    /// Reads once, to the front of `into`, and returns the number of bytes. The number is 0 only at the end of the
    /// file.
    fn read(&mut self, into: &mut [u8]) -> io::Result<usize>
        requires room { 0 < length into.old }
        requires place { self.old.at ≤ 2 ^ 31 }
        ensures within { IfOk result (λ n. n ≤ length into.new) }
        ensures entry { self.new.entry ≡ self.old.entry }
        ensures moved { IfOk result (λ n. self.new.at ≡ self.old.at + n) }
        ensures gave { IfOk result (λ n. WentOn F.remaining self.old.file self.old.at n into.new self.new.file) }
    {
        let count = self.file.read(into)?;
        self.at += count as u64;
        Ok(count)
    }
}

/// Reads once from offset `at` of the file, and returns the file and the number of bytes. It uses the open file if that
/// is the requested one at this offset; else it closes that file and opens the requested one.
pub(crate) fn read_at<D: Disk>(
    disk: &mut D,
    current: Option<OpenFile<D::File>>,
    name: &String,
    entry: usize,
    at: u64,
    into: &mut [u8],
) -> io::Result<(OpenFile<D::File>, usize)>
    requires room { 0 < length into.old }
    requires place { at ≤ 2 ^ 31 }
    ensures within { IfOk result (λ read. read.1 ≤ length into.new) }
    ensures opened { D.opened disk.new ≡ D.opened disk.old ++ opened_for (standing entry at current) (string_bytes name.now) }
    ensures entry { IfOk result (λ read. read.0.entry ≡ entry) }
    ensures moved { IfOk result (λ read. read.0.at ≡ at + read.1) }
    ensures gave { IfOk result (λ read. GaveFrom D.File.stream_bytes D.File.stream_position D.File.remaining
        (standing entry at current) at read.1 into.new read.0.file) }
{
    let mut file = match standing(entry, at, current) {
        Some(file) => file,
        None => open_at(disk, name, entry, at)?,
    };
    let count = file.read(into)?;
    Ok((file, count))
}

/// Returns the open file if it is the requested one at this offset; else closes it.
fn standing<F: Drop>(entry: usize, at: u64, current: Option<OpenFile<F>>) -> Option<OpenFile<F>>
    ensures { result ≡ standing entry at current }
{
    let file = current?;
    if file.entry == entry && file.at == at {
        Some(file)
    } else {
        None
    }
}

/// Opens the named file and moves it to this offset. At offset 0 it doesn't seek, since a pipe does not allow it.
fn open_at<D: Disk>(
    disk: &mut D,
    name: &String,
    entry: usize,
    at: u64,
) -> io::Result<OpenFile<D::File>>
    ensures opened { D.opened disk.new ≡ D.opened disk.old ++ string_bytes name.now ∷ [] }
    ensures entry { IfOk result (λ file. file.entry ≡ entry) }
    ensures place { IfOk result (λ file. file.at ≡ at) }
    ensures stands { IfOk result (λ current. StandsAt D.File.stream_bytes D.File.stream_position D.File.remaining at
        current.file) }
{
    let mut file = disk.open(name)?;
    if at > 0 {
        file.seek(SeekFrom::Start(at))?;
    }
    Ok(OpenFile { entry, at, file })
}
