// The names that a source holds, with bytes and counts for each.
ghost use Rattle.std.specs.Prelude.{◌≡◌, ◌-◌, min, List, [], length, take, drop, map, string_bytes, IfSome, OnOk, OnErr};
ghost use Rattle.std.specs.List.{position};
ghost use Rattle.std.specs.Option.{is_some, option_copied};
ghost use Rattle.std.specs.Str.{bytes_eq};
ghost use Rattle.strip_io.specs.Held.{bytes_of, count_came, count_fault, entry_of, is_held, put};

use crate::Memory;
use crate::tally::next_count;
use std::alloc::Global;
use std::marker::Model;

#[derive(Drop)]
struct Entry {
    name: String,
    bytes: Vec<u8>,
    faults: u64,
    came: u64,
}

// A list of names, each with its bytes, its number of failed reads, and the number of bytes that reads returned.
#[derive(Drop)]
pub(crate) struct Table {
    alloc: Global,
    entries: Vec<Entry>,
}

impl Model for Table {
    ghost use Rattle.std.specs.Prelude.{List, map};
    ghost use Rattle.strip_io.specs.Held.{HeldFile};

    ghost Value = { List HeldFile };

    ghost use Rattle.strip_io.specs.Shown.{held_file};

    ghost view = { λ table. map held_file table.entries.items };
}

// Returns the index of the name.
fn place(entries: &[Entry], name: &str) -> Option<usize>
    ensures { result ≡ position (λ entry. bytes_eq (string_bytes entry.name) name.now) entries.now }
{
    entries.iter().position(|entry| entry.name.as_str() == name)
}

impl Table {
    pub(crate) fn new(alloc: Global) -> Table
        ensures { result ≡ [] }
    {
        Table {
            alloc,
            entries: Vec::new(alloc),
        }
    }

    // Returns the index of the name, and the name as the table has it.
    pub(crate) fn own_name(&self, name: &str) -> Option<(usize, &String)>
        ensures held { is_some result ≡ is_held self.now name.now }
        ensures entry { IfSome result (λ own. own.0 ≡ entry_of self.now name.now) }
        ensures same { IfSome result (λ own. string_bytes own.1.now ≡ name.now) }
    {
        let place = place(&self.entries, name)?;
        Some((place, &self.entries[place].name))
    }

    pub(crate) fn bytes(&self, name: &str) -> Option<&[u8]>
        ensures { option_copied result ≡ bytes_of self.now name.now }
    {
        let place = place(&self.entries, name)?;
        Some(&self.entries[place].bytes)
    }

    pub(crate) fn put(&mut self, name: &str, bytes: &[u8]) -> Result<(), Memory>
        ensures ok { OnOk result (self.new ≡ put self.old name.now bytes.now) }
        ensures err { OnErr result (self.new ≡ self.old) }
    {
        let bytes = Vec::from_slice(self.alloc, bytes)?;
        if let Some(place) = place(&self.entries, name) {
            self.entries[place].bytes = bytes;
            return Ok(());
        }
        let name = String::from_str(self.alloc, name)?;
        self.entries.push(Entry {
            name,
            bytes,
            faults: 0,
            came: 0,
        })?;
        Ok(())
    }

    pub(crate) fn count_fault(&mut self, name: &str)
        ensures { self.new ≡ count_fault self.old name.now }
    {
        if let Some(place) = place(&self.entries, name) {
            let entry = &mut self.entries[place];
            entry.faults = next_count(entry.faults);
        }
    }

    pub(crate) fn count_came(&mut self, name: &str, count: usize)
        ensures { self.new ≡ count_came self.old name.now count }
    {
        if let Some(place) = place(&self.entries, name) {
            let entry = &mut self.entries[place];
            entry.came = entry.came.saturating_add(count as u64);
        }
    }
}

// Copies bytes of the text from offset `at` on to the front of `into`, and returns their number. It copies as many as
// remain and fit, and at most `most`.
pub(crate) fn copy_from(text: &[u8], at: usize, most: usize, into: &mut [u8]) -> usize
    ensures count { result ≡ min most (min (length into.old) (length text.now - at)) }
    ensures bytes { take result into.new ≡ take result (drop at text.now) }
{
    let rest = &text[at.min(text.len())..];
    let count = rest.len().min(into.len()).min(most);
    into[..count].copy_from_slice(&rest[..count]);
    count
}
