// Parts and workers of a world.
ghost use Rattle.std.specs.Prelude.{◌≡◌, ◌+◌, ◌-◌, ◌^◌, ◌<◌, nat_lt, if◌then◌else◌, None, Some};
ghost use Rattle.strip_film.specs.Shown.{path_data};
ghost use Rattle.strip_world.specs.Shown.{part_data, worker_data};
ghost use Rattle.strip_world.specs.Opened.{idle_worker};
ghost use Rattle.strip_world.specs.World.{no_part};

use strip_film::{Known, Path, Probe};

/// A part (the front or a task): its claimer, the last path enlisted in it, and the number of paths enlisted.
#[derive(Clone, Copy, Debug)]
pub(crate) struct Part {
    pub(crate) claimer: Option<u32>,
    pub(crate) last: Option<Path>,
    pub(crate) number: u32,
}

impl Part {
    /// Makes an unclaimed part.
    pub(crate) fn free() -> Part
        ensures { part_data result ≡ no_part }
    {
        Part {
            claimer: None,
            last: None,
            number: 0,
        }
    }

    /// Makes `path` the last path, and counts it.
    pub(crate) fn enlist(&mut self, path: &Path)
        requires { self.old.number < 2 ^ 32 - 1 }
        ensures { part_data self.new ≡ record (part_data self.old) {
          last = Some
              (path_data path.now);
          number = self.old.number + 1;
        } }
    {
        self.last = Some(*path);
        self.number += 1;
    }
}

/// A probe: the set looked up, and the answer.
#[derive(Clone, Copy, Debug)]
pub(crate) struct Asked {
    pub(crate) set: u64,
    pub(crate) answer: Probe,
}

/// A worker: the least cost that it was last told, in units of money, its best path offered, its last probe and its
/// last note.
#[derive(Clone, Copy, Debug)]
pub(crate) struct Worker {
    pub(crate) told: u64,
    pub(crate) best: Path,
    pub(crate) asked: Option<Asked>,
    pub(crate) note: Option<Known>,
}

impl Worker {
    /// Makes a worker without events. It was told the start path's cost.
    pub(crate) fn of(start: &Path) -> Worker
        ensures { worker_data result ≡ idle_worker (path_data start.now) }
    {
        Worker {
            told: start.paid(),
            best: *start,
            asked: None,
            note: None,
        }
    }

    /// Tells the worker the least cost, and keeps the path if it is the worker's best.
    pub(crate) fn keep(&mut self, path: &Path, least: u64)
        ensures { worker_data self.new ≡ record (worker_data self.old) {
          told = least;
          best = if nat_lt (path_data path.now).paid (worker_data self.old).best.paid then path_data path.now else (worker_data self.old).best;
        } }
    {
        self.told = least;
        if path.paid() < self.best.paid() {
            self.best = *path;
        }
    }
}
