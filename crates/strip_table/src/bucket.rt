// Copies of a bucket's entries.
ghost use Rattle.std.specs.Prelude.{◌≡◌, ◌==◌, ◌≤◌, length};
ghost use Rattle.std.specs.List.{slice_get};
ghost use Rattle.strip_table.specs.declared.slot.TheConstants.{PLACES};

use crate::slot::{PLACES, Slot};
use strip_film::Known;

/// A copy of a bucket's entries: at most four, each of a different set.
#[derive(Clone, Copy, Debug)]
pub struct Bucket {
    pub(crate) slot: Slot,
    pub(crate) lines: [u32; PLACES],
    pub(crate) count: usize,
    pub ghost few: { count ≤ PLACES },
}

impl Bucket {
    ghost use Rattle.strip_table.specs.Shown.{bucket_data};

    /// Returns the number of entries.
    pub fn len(&self) -> usize
        ensures { result ≡ length (bucket_data self.now) }
    {
        self.count
    }

    /// Returns whether there are no entries.
    pub fn is_empty(&self) -> bool
        ensures { result ≡ (length (bucket_data self.now) == 0) }
    {
        self.count == 0
    }

    /// Returns the entry at a place, counted from 0, or none from `len` on.
    pub fn get(&self, place: usize) -> Option<Known>
        ensures { result ≡ slice_get (bucket_data self.now) place }
    {
        if place >= self.count {
            return None;
        }
        Some(Known {
            line: self.lines[place],
            set: self.slot.sets[place],
            bound: self.slot.bounds[place],
        })
    }
}
