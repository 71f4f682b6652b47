// Line rows, sent to sinks that take them in pieces, and to sinks that fail.
ghost use Rattle.std.specs.Prelude.{◌≤◌};

use std::alloc::Global;
use std::test::Fail;
use strip_film::Line;
use strip_io::{Failed, MemSink};
use strip_proof::{line_text, send_lines};

// Returns lines of large and small sets, with bounds of all lengths.
fn lines(alloc: Global) -> Result<Vec<Line>, Fail> {
    let mut lines = Vec::new(alloc);
    for number in 0..200u64 {
        let set = u64::MAX / (number + 1);
        let bound = u64::MAX >> (number % 64);
        lines.push(Line { set, bound })?;
    }
    Ok(lines)
}

// Returns the rows of the lines, made one by one.
fn rows(alloc: Global, lines: &[Line]) -> Result<Vec<u8>, Fail> {
    let mut rows = Vec::new(alloc);
    for line in lines {
        rows.extend_from_slice(line_text(line).bytes())?;
    }
    Ok(rows)
}

// Tells whether a sink that takes at most this many bytes at a time receives these rows.
fn are_sent(alloc: Global, lines: &[Line], rows: &[u8], piece: usize) -> Result<bool, Fail>
    requires { 1 ≤ piece }
{
    let mut out = MemSink::new(alloc, rows.len(), piece, &[])?;
    send_lines(&mut out, lines)?;
    Ok(out.taken() == rows)
}

#[test]
fn lines_are_sent_as_their_rows(rt: HostRuntime) -> Result<(), Fail> {
    let alloc = rt.alloc();
    let lines = lines(alloc)?;
    let rows = rows(alloc, &lines)?;
    assert!(&rt; are_sent(alloc, &lines, &rows, 1)?);
    assert!(&rt; are_sent(alloc, &lines, &rows, 100)?);
    assert!(&rt; are_sent(alloc, &lines, &rows, 4096)?);
    assert!(&rt; are_sent(alloc, &lines, &rows, 10_000)?);
    Ok(())
}

// Tells whether a sink with a failing third write receives this many of the rows' bytes.
fn is_cut_short(
    alloc: Global,
    lines: &[Line],
    rows: &[u8],
    piece: usize,
    taken: usize,
) -> Result<bool, Fail>
    requires { 1 ≤ piece }
{
    let mut out = MemSink::new(alloc, rows.len(), piece, &[3])?;
    let failed = send_lines(&mut out, lines) == Err(Failed);
    let got = out.taken();
    Ok(failed && got.len() == taken && taken < rows.len() && rows.starts_with(got))
}

#[test]
fn the_third_write_fails(rt: HostRuntime) -> Result<(), Fail> {
    let alloc = rt.alloc();
    let lines = lines(alloc)?;
    let rows = rows(alloc, &lines)?;
    assert!(&rt; is_cut_short(alloc, &lines, &rows, 1, 2)?);
    assert!(&rt; is_cut_short(alloc, &lines, &rows, 100, 200)?);
    assert!(&rt; is_cut_short(alloc, &lines, &rows, 1_000, 2_000)?);
    Ok(())
}
