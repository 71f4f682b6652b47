// The parts of a runtime that a program uses.
ghost use Rattle.std.specs.Prelude.{◌≡◌, [], false, None, IfOk};
ghost use Rattle.strip_words.specs.Shown.{texts};
ghost use Rattle.strip_host.specs.Run.{IsFresh, files_told, sink_told};

use crate::HostDisk;
use crate::words::command_words;
use std::io::Printer;
use std::rt::{self, Env};
use strip_io::{HostFiles, HostSink, Memory};

/// The parts of a runtime that a program uses: its words, files and output.
#[derive(Drop)]
pub struct Host<'r, R: rt::Files + Input + Print> {
    /// The words after the program's name; empty if a word isn't UTF-8.
    pub words: Vec<String>,
    /// The readable files.
    pub files: HostFiles<HostDisk<'r, R>>,
    pub out: HostSink<Printer<'r, R>>,
}

impl<'r, R: Env + rt::Files + Input + Print + AllocGlobal> Host<'r, R> {
    /// Returns the parts of this runtime. No file was opened yet, and nothing was written to the output.
    pub fn of(rt: &'r R) -> Result<Host<'r, R>, Memory>
        ensures fresh { IfOk result (λ host. IsFresh (texts host.words.items) (files_told host.files.held)
            (sink_told host.out.faults)) }
        ensures unopened { IfOk result (λ host. host.files.disk ≡ record { opened = []; is_begun = false }) }
        ensures none_open { IfOk result (λ host. host.files.current ≡ None) }
    {
        let words = command_words(rt)?;
        let files = HostFiles::new(rt.alloc(), HostDisk::new(rt), &words)?;
        let out = HostSink::new(rt);
        Ok(Host { words, files, out })
    }
}
