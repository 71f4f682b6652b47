// A row of a text.
ghost use Rattle.std.specs.Prelude.{◌≡◌, [], length};
ghost use Rattle.strip_text.specs.Rows.{field_of, is_empty_row};

use crate::field::trimmed;
use csv::ByteRecord;
use std::alloc::Global;
use std::marker::Model;

/// A row that was read: its fields without the spaces and tabs at their ends.
#[derive(Drop)]
pub struct Row {
    pub(crate) record: ByteRecord,
}

impl Model for Row {
    ghost use Rattle.std.specs.Prelude.{List, map};
    ghost use Rattle.csv.specs.Records.{fields_of};
    ghost use Rattle.strip_text.specs.Field.{Field, trimmed};

    ghost Value = { List Field };

    ghost view = { λ row. map trimmed (fields_of row.record) };
}

impl Row {
    /// Returns a row without fields, to read into. It takes no memory.
    pub fn new(alloc: Global) -> Row
        ensures { result ≡ [] }
    {
        Row {
            record: ByteRecord::new(alloc),
        }
    }

    /// Returns the number of fields.
    pub fn len(&self) -> usize
        ensures { result ≡ length self.now }
    {
        self.record.len()
    }

    /// Returns the field at this place, counted from 0; it is empty beyond the last one.
    pub fn field(&self, place: usize) -> &[u8]
        ensures { result.now ≡ field_of self.now place }
    {
        match self.record.get(place) {
            Some(field) => trimmed(field),
            None => &[],
        }
    }

    /// Tells whether all fields are empty, or there are none.
    pub fn is_empty(&self) -> bool
        ensures { result ≡ is_empty_row self.now }
    {
        for place in 0..self.len() {
            if !self.field(place).is_empty() {
                return false;
            }
        }
        true
    }
}
