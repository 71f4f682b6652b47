// The rows of a text, read one at a time.
ghost use Rattle.std.specs.Prelude.{◌≡◌, ◌+◌, ◌∷◌, [], true, false, map, Ok, OnErr};
ghost use Rattle.csv.specs.Records.{fields_of};
ghost use Rattle.strip_text.specs.Field.{trimmed};
ghost use Rattle.strip_text.specs.Reader.{IsReading, left_of};
ghost use Rattle.strip_text.specs.Rows.{rows_of};

use crate::Row;
use csv::{ByteRecord, Reader, ReaderBuilder};
use std::alloc::Global;
use std::marker::Model;
use strip_io::Memory;

/// The rows of a text that are still to be read, and the number of rows read. A row is a CSV record with commas and
/// double quotes, and its fields are trimmed of spaces and tabs. A byte-order mark in front of the text is skipped.
#[derive(Drop)]
pub struct Rows<'t> {
    reader: Reader<&'t [u8]>,
    number: u64,
    ended: bool,
}

impl<'t> Model for Rows<'t> {
    ghost use Rattle.std.specs.Prelude.{◌≡◌, ◌+◌, ◌<◌, ◌^◌, false, length};
    ghost use Rattle.strip_text.specs.Rows.{RowsData};
    ghost use Rattle.strip_text.specs.Reader.{IsReading, left_of};

    ghost Value = { RowsData };

    ghost view = { λ rows. record { number = rows.number; left = left_of rows.ended rows.reader } };

    ghost invariant = { λ rows. rows.ended ≡ false → IsReading rows.reader × (rows.number + length (left_of rows.ended rows.reader) < 2 ^ 64) };
}

impl<'t> Rows<'t> {
    /// Returns all rows of the text. It takes no memory.
    pub fn new(alloc: Global, text: &'t [u8]) -> Rows<'t>
        ensures { result ≡ record { number = 0; left = rows_of text.now } }
    {
        let reader = ReaderBuilder::new()
            .has_headers(false)
            .flexible(true)
            .from_reader(alloc, text);
        Rows {
            reader,
            number: 0,
            ended: false,
        }
    }

    /// Reads the next row into `row`, and tells whether there was one. It takes memory for that row alone. If memory is
    /// refused, there are no more rows.
    pub fn read(&mut self, row: &mut Row) -> Result<bool, Memory>
        ensures found { result ≡ Ok true → self.old.left ≡ row.new ∷ self.new.left }
        ensures counted { result ≡ Ok true → self.new.number ≡ self.old.number + 1 }
        ensures ended { result ≡ Ok false → (self.old.left ≡ []) × (self.new ≡ self.old) }
        ensures memory { OnErr result (self.new ≡ record self.old { left = [] }) }
    {
        if self.ended {
            return Ok(false);
        }
        match next_record(&mut self.reader, &mut row.record) {
            Ok(true) => {
                self.number += 1;
                Ok(true)
            }
            Ok(false) => {
                self.ended = true;
                Ok(false)
            }
            Err(Memory) => {
                self.ended = true;
                Err(Memory)
            }
        }
    }

    /// Returns the number of rows read, which is the number of the last one, counted from 1.
    pub fn number(&self) -> u64
        ensures { result ≡ self.now.number }
    {
        self.number
    }
}

/// Reads the next record, and tells whether there was one.
fn next_record(reader: &mut Reader<&[u8]>, row: &mut ByteRecord) -> Result<bool, Memory>
    requires { IsReading reader.old }
    ensures found { result ≡ Ok true → IsReading reader.new
        × (left_of false reader.old ≡ map trimmed (fields_of row.new) ∷ left_of false reader.new) }
    ensures ended { result ≡ Ok false → left_of false reader.old ≡ [] }
{
    // A flexible reader over memory has no failure but lack of memory.
    reader.read_byte_record(row).map_err(|_| Memory)
}
