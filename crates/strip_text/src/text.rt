// A text of rows, written a row at a time.
ghost use Rattle.std.specs.Prelude.{◌≡◌, ◌++◌, [], map, IfOk, OnOk};
ghost use Rattle.strip_text.specs.Rows.{csv_row};
ghost use Rattle.strip_text.specs.Writer.{IsBetweenRows, bytes_of};

use csv::{Writer, WriterBuilder};
use std::alloc::Global;
use std::marker::Model;
use strip_io::Memory;

/// A text of rows, modelled as its bytes.
#[derive(Drop)]
pub struct Text {
    writer: Writer<Vec<u8>>,
    // Whether memory ran out in the middle of a row.
    broken: bool,
}

impl Model for Text {
    ghost use Rattle.std.specs.Prelude.{◌≡◌, ℕ, false, List};
    ghost use Rattle.strip_text.specs.Writer.{IsBetweenRows, bytes_of};

    ghost Value = { List ℕ };

    ghost view = { λ text. bytes_of text.writer };

    ghost invariant = { λ text. text.broken ≡ false → IsBetweenRows text.writer };
}

impl Text {
    /// Returns an empty text. It takes no memory.
    pub fn new(alloc: Global) -> Text
        ensures { result ≡ [] }
    {
        let writer = WriterBuilder::new()
            .flexible(true)
            .from_writer(Vec::new(alloc));
        Text {
            writer,
            broken: false,
        }
    }

    /// Appends a row of these fields, in double quotes if they need them. After a refusal of memory the text is
    /// unspecified.
    pub fn push(&mut self, fields: &[&[u8]]) -> Result<(), Memory>
        ensures { OnOk result (self.new ≡ self.old ++ csv_row (map (λ field. field.now) fields.now)) }
    {
        if self.broken {
            return Err(Memory);
        }
        match write_row(&mut self.writer, fields) {
            Ok(()) => Ok(()),
            Err(Memory) => {
                self.broken = true;
                Err(Memory)
            }
        }
    }

    /// Returns the bytes of the text.
    pub fn into_bytes(self) -> Result<Vec<u8>, Memory>
        ensures { IfOk result (λ bytes. bytes.items ≡ self) }
    {
        self.writer.into_inner().map_err(|_| Memory)
    }
}

fn write_row(writer: &mut Writer<Vec<u8>>, fields: &[&[u8]]) -> Result<(), Memory>
    requires { IsBetweenRows writer.old }
    ensures goes { OnOk result (IsBetweenRows writer.new) }
    ensures text { OnOk result (bytes_of writer.new ≡ bytes_of writer.old
        ++ csv_row (map (λ field. field.now) fields.now)) }
{
    // A writer into a vector has no failure but lack of memory.
    writer.write_fields(fields).map_err(|_| Memory)
}
