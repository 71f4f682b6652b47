// The trait of a disk, through which the program opens files.
ghost use Rattle.std.specs.Prelude.{◌≡◌, ℕ, List, [], ◌∷◌, ◌++◌, string_bytes};

use std::io;
use std::io::{Read, Seek};

/// A disk: opens files by their paths.
pub trait Disk {
    /// An open file.
    type File: Read + Seek + Drop;

    /// The names of the files opened so far, in order. Each was opened for reading.
    ghost opened: { Self → List (List ℕ) };

    /// Opens the file of this name for reading, at its beginning. The name is a `&String`, so that a disk can store it.
    fn open(&mut self, name: &String) -> io::Result<Self::File>

        // The call counts as one opening of this file and of no other, whether it succeeds or not.
        ensures opened { opened self.new ≡ opened self.old ++ string_bytes name.now ∷ [] };
}
