// Loads and sends that have to succeed if memory is left, with a few texts worked by hand.
ghost use Rattle.std.specs.Prelude.{◌≤◌, ◌^◌};

use std::alloc::Global;
use std::fs;
use std::test::Fail;
use strip_host::HostDisk;
use strip_io::{
    Failed, Files, HostFiles, HostSink, LoadFault, MemFiles, MemSink, NoFaultFiles, NoFaultSink,
    load, send,
};

// Longer than one piece of a load, which is 4096 bytes.
const LONG: usize = 5000;

/// Tells whether the file is loaded as `text`, under this limit in bytes.
fn loads<F: Files>(
    alloc: Global,
    files: &mut F,
    name: &str,
    limit: u64,
    text: &[u8],
) -> Result<bool, Fail>
    requires { limit ≤ 2 ^ 30 }
{
    Ok(load(alloc, files, name, limit)?.as_slice() == text)
}

/// Tells whether loading the file fails with this fault.
fn fails<F: Files>(alloc: Global, files: &mut F, name: &str, limit: u64, fault: LoadFault) -> bool
    requires { limit ≤ 2 ^ 30 }
{
    load(alloc, files, name, limit).err() == Some(fault)
}

#[test]
fn a_text_is_loaded_in_pieces(rt: HostRuntime) -> Result<(), Fail> {
    let alloc = rt.alloc();
    let text = vec![in alloc; 7; LONG]?;
    let mut files = MemFiles::new(alloc, &[])?;
    files.add("long", &text)?;
    files.add("short", b"abc")?;
    files.add("short", b"de")?;
    assert!(&rt; loads(alloc, &mut files, "long", 5000, &text)?);
    assert!(&rt; loads(alloc, &mut files, "short", 2, b"de")?);
    assert!(&rt; fails(alloc, &mut files, "long", 4999, LoadFault::TooLong));
    assert!(&rt; fails(alloc, &mut files, "none", 10, LoadFault::Read));
    Ok(())
}

#[test]
fn a_read_fails_in_mid_text(rt: HostRuntime) -> Result<(), Fail> {
    let alloc = rt.alloc();
    let text = vec![in alloc; 7; LONG]?;
    let mut files = MemFiles::new(alloc, &[2])?;
    files.add("long", &text)?;
    assert!(&rt; fails(alloc, &mut files, "long", 5000, LoadFault::Read));
    assert!(&rt; loads(alloc, &mut files, "long", 5000, &text)?);
    Ok(())
}

#[test]
fn a_read_may_give_few_bytes(rt: HostRuntime) -> Result<(), Fail> {
    let alloc = rt.alloc();
    let mut files = MemFiles::short(alloc, 7, &[3])?;
    files.add("short", ALPHABET)?;
    assert!(&rt; fails(alloc, &mut files, "short", 30, LoadFault::Read));
    assert!(&rt; loads(alloc, &mut files, "short", 30, ALPHABET)?);
    assert!(&rt; fails(alloc, &mut files, "short", 29, LoadFault::TooLong));
    Ok(())
}

#[test]
fn files_without_faults_hold_each_name(rt: HostRuntime) -> Result<(), Fail> {
    let alloc = rt.alloc();
    let mut files = NoFaultFiles::new(alloc);
    files.add("a", b"abc")?;
    assert!(&rt; loads(alloc, &mut files, "a", 3, b"abc")?);
    assert!(&rt; loads(alloc, &mut files, "b", 3, b"")?);
    Ok(())
}

/// Sends the alphabet and four digits to a sink with this room, in which the writes with these numbers fail. It tells
/// whether the result is `end` and the sink has `taken`.
fn is_sent(
    alloc: Global,
    room: usize,
    failing: &[u64],
    end: Result<(), Failed>,
    taken: &[u8],
) -> Result<bool, Fail> {
    let mut sink = MemSink::new(alloc, room, 10, failing)?;
    Ok(send(&mut sink, ALPHABET) == end && sink.taken() == taken)
}

const ALPHABET: &[u8; 30] = b"abcdefghijklmnopqrstuvwxyz0123";

#[test]
fn a_text_is_sent_in_pieces(rt: HostRuntime) -> Result<(), Fail> {
    let alloc = rt.alloc();
    assert!(&rt; is_sent(alloc, 30, &[], Ok(()), ALPHABET)?);
    assert!(&rt; is_sent(alloc, 30, &[3], Err(Failed), b"abcdefghijklmnopqrst")?);
    assert!(&rt; is_sent(alloc, 15, &[], Err(Failed), b"abcdefghijklmno")?);
    let mut counted = NoFaultSink::new();
    send(&mut counted, ALPHABET)?;
    assert!(&rt; counted.count() == 30);
    Ok(())
}

#[test]
fn the_host_reads_its_words_alone(rt: HostRuntime) -> Result<(), Fail> {
    let alloc = rt.alloc();
    let path = String::from_str(alloc, "held.txt")?;
    fs::write(&rt, path.as_str(), "abc")?;
    let words = vec![in alloc; path, String::from_str(alloc, "no_such_file")?]?;
    let mut files = HostFiles::new(alloc, HostDisk::new(&rt), &words)?;
    assert!(&rt; loads(alloc, &mut files, words[0].as_str(), 3, b"abc")?);
    assert!(&rt; fails(alloc, &mut files, "no_such_file", 3, LoadFault::Read));
    assert!(&rt; fails(alloc, &mut files, "another_file", 3, LoadFault::Read));
    fs::remove_file(&rt, words[0].as_str())?;
    send(&mut HostSink::new(&rt), b"sent\n")?;
    Ok(())
}
