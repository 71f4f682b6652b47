// Streams that are cut short, fail and stop in the middle.
ghost use Rattle.std.specs.Prelude.{◌^◌, ◌≤◌};
ghost use Rattle.strip_host.specs.Disk.{names_of};

use http_server::Log;
use std::alloc::Global;
use std::io;
use std::io::{ErrorKind, Read, Seek, SeekFrom, Write};
use std::test::Fail;
use strip_io::{Disk, Failed, Files, HostFiles, HostSink, LoadFault, Memory, load, send};

const TEXT: &[u8; 8] = b"abcdefgh";

// A reader of the text, with at most `most` bytes in a read.
#[derive(Drop)]
struct Reader {
    place: u64,
    most: usize,
    // The number of the read that fails, and whether seeks fail.
    failing: u64,
    stuck: bool,
    calls: u64,
}

impl Read for Reader {
    fn read(&mut self, buf: &mut [u8]) -> io::Result<usize> {
        self.calls = self.calls.saturating_add(1);
        if self.calls == self.failing {
            return Err(io::Error::from(ErrorKind::PermissionDenied));
        }
        let text = TEXT.as_slice();
        let start = (self.place as usize).min(text.len());
        let count = buf.len().min(self.most).min(text.len() - start);
        buf[..count].copy_from_slice(&text[start..start + count]);
        self.place = self.place.saturating_add(count as u64);
        Ok(count)
    }
}

impl Seek for Reader {
    fn seek(&mut self, to: SeekFrom) -> io::Result<u64> {
        match to {
            SeekFrom::Start(place) if !self.stuck => {
                self.place = place;
                Ok(place)
            }
            _ => Err(io::Error::from(ErrorKind::Unsupported)),
        }
    }
}

// A disk on which every name is that of the text. A read gives at most three bytes.
#[derive(Drop)]
struct OneText {
    // The number of the read that fails in the first opened file, and whether seeks fail.
    failing: u64,
    stuck: bool,
    noted: Log<String, ()>,
}

impl Disk for OneText {
    type File = Reader;

    ghost opened = { λ disk. names_of disk.noted.items };

    fn open(&mut self, name: &String) -> io::Result<Reader> {
        self.noted = self.noted.and(name, &());
        let failing = self.failing;
        self.failing = 0;
        Ok(Reader {
            place: 0,
            most: 3,
            failing,
            stuck: self.stuck,
            calls: 0,
        })
    }
}

// Returns the files of such a disk, which has the file `held`.
fn files_of(alloc: Global, failing: u64, stuck: bool) -> Result<HostFiles<OneText>, Memory> {
    let words = vec![in alloc; String::from_str(alloc, "held")?]?;
    let noted = Log::new();
    let disk = OneText {
        failing,
        stuck,
        noted,
    };
    HostFiles::new(alloc, disk, &words)
}

// A writer that stores what it takes, with at most `most` bytes in a write.
#[derive(Drop)]
struct Writer {
    taken: [u8; 8],
    len: usize,
    most: usize,
    // The number of the write that fails, and of the write that takes nothing.
    failing: u64,
    stopping: u64,
    calls: u64,
}

impl Writer {
    fn new(most: usize, failing: u64, stopping: u64) -> Writer {
        Writer {
            taken: [0; 8],
            len: 0,
            most,
            failing,
            stopping,
            calls: 0,
        }
    }
}

impl Write for Writer {
    fn write(&mut self, buf: &[u8]) -> io::Result<usize> {
        self.calls = self.calls.saturating_add(1);
        if self.calls == self.failing {
            return Err(io::Error::from(ErrorKind::BrokenPipe));
        }
        if self.calls == self.stopping {
            return Ok(0);
        }
        let start = self.len.min(self.taken.len());
        let count = buf.len().min(self.most).min(self.taken.len() - start);
        self.taken[start..start + count].copy_from_slice(&buf[..count]);
        self.len = start + count;
        Ok(count)
    }

    fn flush(&mut self) -> io::Result<()> {
        Ok(())
    }
}

// Tells whether a read at this place gives `count` bytes, or fails for none, and leaves `text` in the buffer.
fn reads_so(
    files: &mut HostFiles<OneText>,
    at: u64,
    into: &mut [u8; 4],
    count: Option<usize>,
    text: &[u8; 4],
) -> bool
    requires { at ≤ 2 ^ 31 }
{
    files.read("held", at, into).ok() == count && &*into == text
}

#[test]
fn a_read_may_be_cut_short(rt: HostRuntime) -> Result<(), Fail> {
    let mut files = files_of(rt.alloc(), 0, false)?;
    let mut into = [0; 4];
    assert!(&rt; reads_so(&mut files, 5, &mut into, Some(3), b"fgh\0"));
    assert!(&rt; reads_so(&mut files, 8, &mut into, Some(0), b"fgh\0"));
    assert!(&rt; reads_so(&mut files, 2, &mut into, Some(3), b"cde\0"));
    assert!(&rt; reads_so(&mut files, 7, &mut into, Some(1), b"hde\0"));
    Ok(())
}

#[test]
fn a_read_goes_on_without_a_seek(rt: HostRuntime) -> Result<(), Fail> {
    let mut files = files_of(rt.alloc(), 0, true)?;
    let mut into = [0; 4];
    assert!(&rt; load(rt.alloc(), &mut files, "held", 8)?.as_slice() == TEXT.as_slice());
    assert!(&rt; reads_so(&mut files, 0, &mut into, Some(3), b"abc\0"));
    assert!(&rt; reads_so(&mut files, 3, &mut into, Some(3), b"def\0"));
    assert!(&rt; reads_so(&mut files, 5, &mut into, None, b"def\0"));
    Ok(())
}

#[test]
fn a_failed_read_is_no_end(rt: HostRuntime) -> Result<(), Fail> {
    let alloc = rt.alloc();
    let mut files = files_of(alloc, 2, false)?;
    assert!(&rt; load(alloc, &mut files, "held", 8).err() == Some(LoadFault::Read));
    assert!(&rt; load(alloc, &mut files, "held", 8)?.as_slice() == TEXT.as_slice());
    assert!(&rt; load(alloc, &mut files, "other", 8).err() == Some(LoadFault::Read));
    Ok(())
}

// Tells whether sending the text to the writer has this result, and the writer then has these bytes, after this many
// writes.
fn takes(writer: Writer, end: Result<(), Failed>, taken: &[u8; 8], calls: u64) -> bool {
    let mut out = HostSink::over(writer);
    let found = send(&mut out, TEXT);
    let writer = out.into_inner();
    found == end && &writer.taken == taken && writer.calls == calls
}

#[test]
fn a_writer_gets_the_text_and_no_more_after_a_fault(rt: HostRuntime) -> Result<(), Fail> {
    assert!(&rt; takes(Writer::new(3, 0, 0), Ok(()), TEXT, 3));
    assert!(&rt; takes(Writer::new(3, 2, 0), Err(Failed), b"abc\0\0\0\0\0", 2));
    assert!(&rt; takes(Writer::new(3, 0, 3), Err(Failed), b"abcdef\0\0", 3));
    Ok(())
}
