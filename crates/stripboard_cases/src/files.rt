// The files that are available in a case.
ghost use Rattle.std.specs.Prelude.{◌≡◌, ◌≤◌, ◌++◌, [], length, Ok, None, IfOk, IfSome, OnOk, string_bytes};
ghost use Rattle.strip_io.specs.Held.{held_data};
ghost use Rattle.stripboard_cases.specs.Met.{IsHeld};
ghost use Rattle.stripboard_cases.specs.AtHand.{AreApart, HasBytes, IsGiven, IsNowHeld, IsSource};

use crate::case::{Base, Given, Held};
use std::alloc::{AllocError, AllocFailed, Global};
use strip_io::{MemFiles, Memory};

/// A reason why a file can't be given.
enum Lack {
    /// The file of this name isn't available, or doesn't have the row.
    File(String),
    Memory,
}

impl From<AllocError> for Lack {
    fn from(_: AllocError) -> Lack {
        Lack::Memory
    }
}

impl<T: Drop> From<AllocFailed<T>> for Lack {
    fn from(_: AllocFailed<T>) -> Lack {
        Lack::Memory
    }
}

/// Stores a given file. If the file that it is made from isn't available, or doesn't have the row, it returns that
/// file's name.
pub(crate) fn give(
    alloc: Global,
    files: &mut Vec<Held>,
    given: &Given,
) -> Result<Option<String>, Memory>
    ensures { result ≡ Ok None → IsGiven given.now files.old.items files.new.items }
{
    let bytes = match bytes_given(alloc, files, given) {
        Ok(bytes) => bytes,
        Err(Lack::File(name)) => return Ok(Some(name)),
        Err(Lack::Memory) => return Err(Memory),
    };
    hold(files, given.name.clone()?, bytes)?;
    Ok(None)
}

/// Returns the bytes of a given file.
fn bytes_given(alloc: Global, files: &[Held], given: &Given) -> Result<Vec<u8>, Lack>
    ensures { IfOk result (λ bytes. HasBytes files.now given.now.base given.now.text.items bytes.items) }
{
    match &given.base {
        Base::None => Ok(Vec::from_slice(alloc, &given.text)?),
        Base::Behind(of) => Ok(behind(alloc, bytes_at_hand(files, of)?, &given.text)?),
        Base::Within(of, row) => match within(
            alloc,
            bytes_at_hand(files, of)?,
            *row,
            &given.text,
        )? {
            Some(bytes) => Ok(bytes),
            None => Err(Lack::File(of.clone()?)),
        },
    }
}

/// Stores the bytes under the name, in place of its earlier bytes.
pub(crate) fn hold(files: &mut Vec<Held>, name: String, bytes: Vec<u8>) -> Result<(), Memory>
    ensures { OnOk result (IsNowHeld (string_bytes name) bytes.items files.old.items files.new.items) }
{
    files.retain(|held| held.name.as_str() != name.as_str());
    files.push(Held { name, bytes })?;
    Ok(())
}

/// Returns the bytes of an available file.
fn bytes_at_hand<'a>(files: &'a [Held], name: &String) -> Result<&'a [u8], Lack>
    ensures { IfOk result (λ bytes. IsHeld files.now (string_bytes name.now) bytes.now) }
{
    for held in files {
        if held.name.as_str() == name.as_str() {
            return Ok(&held.bytes);
        }
    }
    Err(Lack::File(name.clone()?))
}

fn behind(alloc: Global, front: &[u8], text: &[u8]) -> Result<Vec<u8>, AllocError>
    ensures { IfOk result (λ bytes. bytes.items ≡ front.now ++ text.now) }
{
    let mut bytes = Vec::from_slice(alloc, front)?;
    bytes.extend_from_slice(text)?;
    Ok(bytes)
}

/// Returns the text with `rows` in place of one of its rows, or none if it has fewer rows.
fn within(
    alloc: Global,
    text: &[u8],
    row: u64,
    rows: &[u8],
) -> Result<Option<Vec<u8>>, AllocError> {
    let mut bytes = Vec::new(alloc);
    let mut number = 0u64;
    for line in text.split_inclusive(|byte| *byte == b'\n') {
        number = number.saturating_add(1);
        bytes.extend_from_slice(if number == row { rows } else { line })?;
    }
    Ok((row <= number).then_some(bytes))
}

/// Makes a source of the files. A read returns at most `piece` bytes, and the reads with these numbers fail.
pub(crate) fn source(
    alloc: Global,
    files: &[Held],
    piece: usize,
    failing: &[u64],
) -> Result<MemFiles, Memory>
    requires apart { AreApart files.now }
    requires piece { 1 ≤ piece }
    ensures { IfOk result (λ source. IsSource files.now (held_data source.files)) }
{
    let mut source = MemFiles::short(alloc, piece, failing)?;
    for held in files {
        source.add(held.name.as_str(), &held.bytes)?;
    }
    Ok(source)
}
