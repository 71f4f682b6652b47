// A file of the host, or its standard input.
ghost use Rattle.std.specs.Prelude.{◌≡◌, ◌<◌, ◌≤◌, length, IfOk};

use std::io;
use std::io::{ErrorKind, Read, Seek, SeekFrom};

/// A readable file of the host: a file that was opened by its name, or the standard input, which can't be sought.
#[derive(Drop)]
pub enum HostFile<F, I> {
    /// A file that was opened by its name.
    Named(F),
    /// The standard input.
    Standard(I),
}

impl<F: Read, I: Read> Read for HostFile<F, I> {
    ghost use Rattle.strip_host.specs.Disk.{left_of};

    ghost remaining = { λ file. left_of F.remaining I.remaining file };

    fn read(&mut self, buf: &mut [u8]) -> io::Result<usize> {
        match self {
            HostFile::Named(file) => file.read(buf),
            HostFile::Standard(input) => input.read(buf),
        }
    }
}

impl<F: Seek, I> Seek for HostFile<F, I> {
    ghost use Rattle.strip_host.specs.Disk.{known_of};

    ghost stream_position = { λ file. known_of F.stream_position file };

    ghost stream_bytes = { λ file. known_of F.stream_bytes file };

    fn seek(&mut self, to: SeekFrom) -> io::Result<u64> {
        match self {
            HostFile::Named(file) => file.seek(to),
            HostFile::Standard(_) => Err(io::Error::from(ErrorKind::Unsupported)),
        }
    }
}
