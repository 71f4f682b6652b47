// The state of a search by layers.
ghost use Rattle.std.specs.Prelude.{◌≡◌, ◌≢◌, ◌-◌, ◌<◌, ◌≤◌, ◌==◌, ℕ, List, [], ◌∷◌, None, nat_eq, nat_lt, length, max, false, take, All, IfOk, MatchBool};
ghost use Rattle.std.specs.List.{position};
ghost use Rattle.strip_film.specs.Film.{LiesIn};
ghost use Rattle.strip_film.specs.Shown.{path_data};
ghost use Rattle.strip_model.specs.declared.kind.Kind.{Kind};
ghost use Rattle.strip_model.specs.Film.{FilmData};
ghost use Rattle.strip_lines.specs.Lines.{line_at, with_raised};
ghost use Rattle.strip_bound.specs.Bounds.{bound};
ghost use Rattle.strip_layers.specs.Search.{Adds, AreTrue, AskedIsTrue, Opens};
ghost use Rattle.strip_layers.specs.Walked.{IsAskFor, Stands};
ghost use Rattle.strip_layers.specs.Shown.{search_data};

use crate::ask::Ask;
use crate::found::Lowest;
use crate::layer::Standing;
use crate::sheet::Sheet;
use indexmap::IndexMap;
use std::alloc::Global;
use strip_film::{Line, Path};
use strip_io::Memory;
use strip_mask::Mask;

/// The state of a search by layers: its lines, at most `nodes`, and the static bounds that it computed. `best` is the
/// cheapest complete path, and `goal` the initial path's pay. `spent` tells whether a line was needed when there were
/// `nodes`.
#[derive(Debug, Drop)]
pub(crate) struct Search {
    pub sheet: Sheet,
    // For each requested set, a number that is at most its static bound.
    pub found: IndexMap<u64, Lowest>,
    pub best: Path,
    pub goal: u64,
    pub nodes: u32,
    pub spent: bool,
}

impl Search {
    /// Returns a search with this complete path and no lines.
    pub(crate) fn new(alloc: Global, start: &Path, nodes: u32) -> Search
        ensures search { search_data result ≡ record {
          lines = [];
          best = path_data start.now;
          goal = (path_data start.now).paid;
          nodes = nodes;
          spent = false;
        } }
        ensures found { (kind : Kind) (film : FilmData) → AreTrue kind film result.found.entries }
    {
        Search {
            sheet: Sheet::new(alloc),
            found: IndexMap::new(alloc),
            best: *start,
            goal: start.paid(),
            nodes,
            spent: false,
        }
    }

    /// Keeps a complete path that pays less than the best one.
    pub(crate) fn meet(&mut self, path: &Path)
        ensures met { MatchBool (nat_lt (path_data path.now).paid (search_data self.old).best.paid)
            (search_data self.new ≡ record (search_data self.old) { best = path_data path.now })
            (search_data self.new ≡ search_data self.old) }
        ensures found { self.new.found.entries ≡ self.old.found.entries }
    {
        if path.paid() < self.best.paid() {
            self.best = *path;
        }
    }

    /// Returns the bound of the first line, in units of money: the bound that the lines prove of all scenes.
    pub(crate) fn proved(&self) -> u64
        requires { 0 < length (search_data self.now).lines }
        ensures { result ≡ (line_at (search_data self.now).lines 0).bound }
    {
        self.sheet.bound_at(0)
    }

    /// Makes the request for the path's remaining set that reaches a limit.
    pub(crate) fn ask_for(&self, path: &Path, limit: u64) -> Ask
        ensures { (kind : Kind) (film : FilmData) → AreTrue kind film self.now.found.entries
            → IsAskFor kind film (search_data self.now).lines limit (path_data path.now) result }
    {
        let set = path.rest();
        let need = limit.saturating_sub(path.paid());
        match self.sheet.place_of(set) {
            Some(place) => Ask {
                set: set.0,
                need,
                is_known: true,
                value: self.sheet.bound_at(place),
            },
            None => {
                let value = self.found_of(set);
                Ask {
                    set: set.0,
                    need,
                    is_known: value >= need,
                    value,
                }
            }
        }
    }

    /// Returns what was found of a set's static bound, in units of money; 0 if nothing was.
    fn found_of(&self, set: Mask) -> u64
        ensures { (kind : Kind) (film : FilmData) → AreTrue kind film self.now.found.entries → result ≤ bound kind film set.0 }
    {
        match self.found.get(&set.0) {
            Some(lowest) => lowest.value,
            None => 0,
        }
    }

    /// Stores the answers to these requests.
    pub(crate) fn remember(&mut self, asks: &[Ask]) -> Result<(), Memory>
        ensures found { (kind : Kind) (film : FilmData) → AreTrue kind film self.old.found.entries → All (AskedIsTrue kind film) asks.now
            → AreTrue kind film self.new.found.entries }
        ensures search { search_data self.new ≡ search_data self.old }
    {
        for ask in asks {
            if !ask.is_known {
                let lowest = Lowest {
                    value: ask.value,
                    is_whole: ask.value < ask.need,
                };
                self.found.insert(ask.set, lowest)?;
            }
        }
        Ok(())
    }

    /// Closes a set if the answer reaches `need`; otherwise opens it, with a line. If the lines are used up, the set
    /// has no line.
    pub(crate) fn stand(&mut self, set: Mask, ask: &Ask) -> Result<Standing, Memory>
        ensures stands { IfOk result (λ standing. Stands (search_data self.old) set.0 ask.now standing (search_data self.new)) }
        ensures found { self.new.found.entries ≡ self.old.found.entries }
    {
        let place = if ask.value >= ask.need {
            None
        } else {
            self.open(set, ask.value)?
        };
        Ok(Standing {
            value: ask.value.min(ask.need),
            place,
        })
    }

    /// Returns the index of the line of a set. The line is made if there is none and there are fewer than `nodes`.
    fn open(&mut self, set: Mask, bound: u64) -> Result<Option<usize>, Memory>
        ensures opened { IfOk result (λ place. Opens (search_data self.old) (record { set = set.0; bound = bound }) place
            (search_data self.new)) }
        ensures found { self.new.found.entries ≡ self.old.found.entries }
    {
        match self.sheet.place_of(set) {
            Some(place) => Ok(Some(place)),
            None => self.add(set, bound),
        }
    }

    /// Appends a line of the set with this bound, if there are fewer than `nodes`; otherwise marks the search as spent.
    pub(crate) fn add(&mut self, set: Mask, bound: u64) -> Result<Option<usize>, Memory>
        requires { position (λ line. line.set == set.0) (search_data self.old).lines ≡ None }
        ensures added { IfOk result (λ place. Adds (search_data self.old) (record { set = set.0; bound = bound }) place
            (search_data self.new)) }
        ensures found { self.new.found.entries ≡ self.old.found.entries }
    {
        let place = self.sheet.len();
        if place >= self.nodes as usize {
            self.spent = true;
            return Ok(None);
        }
        self.sheet.push(Line { set: set.0, bound })?;
        Ok(Some(place))
    }

    /// Raises the line at an index to the bound, if its own is less, and returns the bound that it then has.
    pub(crate) fn raise(&mut self, place: usize, bound: u64) -> u64
        requires { place < length (search_data self.old).lines }
        ensures lines { search_data self.new ≡ record
            (search_data self.old) { lines = with_raised (search_data self.old).lines place bound } }
        ensures bound { result ≡ max (line_at (search_data self.old).lines place).bound bound }
        ensures found { self.new.found.entries ≡ self.old.found.entries }
    {
        self.sheet.raise(place, bound)
    }

    /// Keeps the first `count` lines only, and marks the search as not spent.
    pub(crate) fn take_back(&mut self, count: usize)
        ensures search { search_data self.new ≡ record (search_data self.old) {
          lines = take count (search_data self.old).lines;
          spent = false;
        } }
        ensures found { self.new.found.entries ≡ self.old.found.entries }
    {
        self.sheet.truncate(count);
        self.spent = false;
    }
}
