// Paths indexed by their remaining sets.
ghost use Rattle.std.specs.Prelude.{◌≡◌, ◌≢◌, ◌==◌, [], ◌++◌, ◌∷◌, None, map, IfOk, IsTrue};
ghost use Rattle.std.specs.List.{AllPairs, position};
ghost use Rattle.strip_film.specs.Path.{PathData};
ghost use Rattle.strip_film.specs.Shown.{path_data};

use indexmap::IndexSet;
use std::alloc::Global;
use strip_film::Path;
use strip_io::Memory;
use strip_mask::Mask;

/// A list of paths, indexed by the set of scenes that each leaves.
#[derive(Debug, Drop)]
pub struct PathsBySet {
    paths: Vec<Path>,
    // The set that each path leaves, in the order of the paths.
    sets: IndexSet<u64>,
    pub ghost by_set: { sets.keys ≡ map (λ path. path.rest) (map path_data paths.items) },
}

impl PathsBySet {
    ghost use Rattle.strip_paths.specs.Paths.{with_path};
    ghost use Rattle.strip_paths.specs.Shown.{paths_of};

    /// Makes an empty list.
    pub fn new(alloc: Global) -> PathsBySet
        ensures { paths_of result ≡ [] }
    {
        PathsBySet {
            paths: Vec::new(alloc),
            sets: IndexSet::new(alloc),
        }
    }

    /// Makes the list of these paths, in their order. It fails only if memory runs out.
    pub fn of(alloc: Global, paths: Vec<Path>) -> Result<PathsBySet, Memory>
        requires apart { AllPairs (λ a b. a.rest ≢ b.rest) (map path_data paths.items) }
        ensures { IfOk result (λ by_set. by_set.paths ≡ paths) }
    {
        let mut sets = IndexSet::new(alloc);
        for path in &paths {
            sets.insert(path.rest().0)?;
        }
        Ok(PathsBySet { paths, sets })
    }

    /// Returns the paths in their order.
    pub fn paths(&self) -> &[Path]
        ensures { result.now ≡ self.now.paths.items }
    {
        &self.paths
    }

    /// Returns the place of the first path that leaves these scenes.
    pub fn place_of(&self, rest: Mask) -> Option<usize>
        ensures { result ≡ position (λ path. path.rest == rest.0) (paths_of self.now) }
    {
        self.sets.get_index_of(&rest.0)
    }

    /// Returns whether a path leaves these scenes and pays at most `paid`, in units of money. A path that leaves them
    /// and pays `paid` would then change nothing.
    pub fn has_as_cheap(&self, rest: Mask, paid: u64) -> bool
        ensures { IsTrue result → (path : PathData) → path.rest ≡ rest.0 → path.paid ≡ paid
            → with_path (paths_of self.now) path ≡ paths_of self.now }
    {
        match self.place_of(rest) {
            None => false,
            Some(place) => self.paths[place].paid() <= paid,
        }
    }

    /// Returns the sets that the paths leave, in the order of the paths.
    pub fn into_sets(self) -> IndexSet<u64>
        ensures { result.keys ≡ map (λ path. path.rest) (paths_of self) }
    {
        let PathsBySet { sets, .. } = self;
        sets
    }

    /// Appends the path, or puts it in the place of a dearer one that leaves the same scenes. It fails only if memory
    /// runs out.
    pub fn put(&mut self, path: &Path) -> Result<(), Memory>
        ensures { IfOk result (λ _. paths_of self.new ≡ with_path (paths_of self.old) (path_data path.now)) }
    {
        match self.place_of(path.rest()) {
            None => self.push(path)?,
            Some(place) => {
                if path.paid() < self.paths[place].paid() {
                    self.paths[place] = *path;
                }
            }
        }
        Ok(())
    }

    /// Appends a path that leaves a new set of scenes.
    fn push(&mut self, path: &Path) -> Result<(), Memory>
        requires new { position (λ other. other.rest == (path_data path.now).rest) (paths_of self.old) ≡ None }
        ensures { IfOk result (λ _. self.new.paths.items ≡ self.old.paths.items ++ path.now ∷ []) }
    {
        // Room is reserved first, so that both lists stay as they are if memory runs out.
        self.sets.reserve(1)?;
        self.paths.push(*path)?;
        self.sets.insert(path.rest().0)?;
        Ok(())
    }
}
