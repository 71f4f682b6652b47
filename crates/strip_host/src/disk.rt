// The host's files.
ghost use Rattle.std.specs.Prelude.{◌≡◌, ◌||◌, ◌++◌, [], ◌∷◌, true, false, codes, string_bytes, IsErr, IfOk};
ghost use Rattle.std.specs.Str.{bytes_eq};
ghost use Rattle.strip_host.specs.Disk.{is_standard};

use crate::HostFile;
use http_server::Log;
use std::io::ErrorKind;
use std::marker::Model;
use std::{fs, io, rt};
use strip_io::Disk;

/// The name of the standard input.
const STANDARD: &str = "-";

/// The host's files by their paths, and its standard input by the name `-`.
#[derive(Drop)]
pub struct HostDisk<'r, R: rt::Files + Input> {
    host: &'r R,
    // Only proofs read it; it takes no memory.
    noted: Log<String, ()>,
    // Whether the standard input was opened.
    is_begun: bool,
}

impl<'r, R: rt::Files + Input> Model for HostDisk<'r, R> {
    ghost use Rattle.strip_host.specs.Disk.{DiskState, names_of};

    ghost Value = { DiskState };

    ghost view = { λ disk. record { opened = names_of disk.noted.items; is_begun = disk.is_begun } };
}

impl<'r, R: rt::Files + Input> HostDisk<'r, R> {
    /// Returns the disk of this runtime. No file was opened yet.
    pub fn new(host: &'r R) -> HostDisk<'r, R>
        ensures { result ≡ record { opened = []; is_begun = false } }
    {
        HostDisk {
            host,
            noted: Log::new(),
            is_begun: false,
        }
    }
}

impl<'r, R: rt::Files + Input> Disk for HostDisk<'r, R> {
    type File = HostFile<R::File, R::Reader>;

    ghost opened = { λ disk. disk.opened };

    // Trusted: this body opens exactly the file that it notes. A path has no meaning in proofs. So no proof can show
    // that the file with this name is opened, for reading alone and once, and that no other file is opened. The
    // contract binds each caller to the names noted.
    fn open(&mut self, name: &String) -> io::Result<HostFile<R::File, R::Reader>>
        ensures opened { self.new.opened ≡ self.old.opened ++ string_bytes name.now ∷ [] }

        // The name `-`, and no other, is the standard input. It is opened at most once.
        ensures standard { IfOk result (λ file. is_standard file ≡ bytes_eq (string_bytes name.now) (codes "-")) }
        ensures begun { self.new.is_begun ≡ (self.old.is_begun || bytes_eq (string_bytes name.now) (codes "-")) }
        ensures once { bytes_eq (string_bytes name.now) (codes "-") ≡ true → self.old.is_begun ≡ true → IsErr result }
    {
        self.noted = self.noted.and(name, &());
        if name.as_str() != STANDARD {
            return Ok(HostFile::Named(fs::open(self.host, name.as_str())?));
        }
        if self.is_begun {
            return Err(io::Error::from(ErrorKind::Unsupported));
        }
        self.is_begun = true;
        Ok(HostFile::Standard(self.host.reader()))
    }
}
