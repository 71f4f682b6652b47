// The sets of a layer, and their state below a limit.
ghost use Rattle.std.specs.Prelude.{◌≡◌, [], length, vec_len};
ghost use Rattle.strip_layers.specs.Layer.{value_in};

use indexmap::IndexSet;
use std::alloc::Global;
use strip_mask::Mask;

/// The state of a set below a limit: its known bound, in units of money, and the index of its line if the set is open.
#[derive(Clone, Copy, Debug)]
pub(crate) struct Standing {
    pub value: u64,
    pub place: Option<usize>,
}

/// The sets of scenes that remain after the paths of one length, with the state of each.
#[derive(Debug, Drop)]
pub(crate) struct Layer {
    pub sets: IndexSet<u64>,
    // In the order of `sets`.
    pub standings: Vec<Standing>,
    pub ghost same: { vec_len standings ≡ length sets.keys },
}

impl Layer {
    /// Returns a layer without sets.
    pub(crate) fn none(alloc: Global) -> Layer
        ensures { result.sets.keys ≡ [] }
    {
        Layer {
            sets: IndexSet::new(alloc),
            standings: Vec::new(alloc),
        }
    }

    /// Returns the known bound of a set, in units of money; 0 for a set of another layer.
    pub(crate) fn value_of(&self, set: Mask) -> u64
        ensures { result ≡ value_in self.now.sets.keys self.now.standings.items set.0 }
    {
        match self.sets.get_index_of(&set.0) {
            Some(index) => self.standings[index].value,
            None => 0,
        }
    }
}
