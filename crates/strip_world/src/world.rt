// The state of a search.
ghost use Rattle.std.specs.Prelude.{◌≡◌, ℕ, ◌<◌, IfOk, length, map};
ghost use Rattle.strip_mask.specs.Set.{has};
ghost use Rattle.strip_table.specs.Shown.{bucket_data};
ghost use Rattle.strip_table.specs.Stripe.{bucket_at};
ghost use Rattle.strip_film.specs.Shown.{path_data};
ghost use Rattle.strip_world.specs.World.{stripe_at, worker_at};

use crate::state::{Part, Worker};
use std::marker::Model;
use strip_film::{Film, Line, Path};
use strip_model::Kind;
use strip_table::{Bucket, Stripe};

/// The world of a search: the least cost, the lines, the table, and each part's claimer. For each worker it has the
/// cost last told, the best path offered, and the last probe and note. It allocates all its memory when it is made: 16
/// bytes for each line and at most 24 for each entry.
#[derive(Drop)]
pub struct World {
    pub(crate) film: Film,
    pub(crate) kind: Kind,
    pub(crate) nodes: u32,
    pub(crate) start: u64,
    pub(crate) tasks: Vec<Path>,
    pub(crate) buckets: u32,
    pub(crate) least: u64,
    pub(crate) lines: Vec<Line>,
    pub(crate) stripes: Vec<Stripe>,
    pub(crate) next: u32,
    pub(crate) parts: Vec<Part>,
    pub(crate) workers: Vec<Worker>,
}

impl Model for World {
    ghost use Rattle.std.specs.Prelude.{◌≤◌, map, vec_capacity};
    ghost use Rattle.strip_film.specs.Shown.{path_data};
    ghost use Rattle.strip_world.specs.Shown.{part_data, worker_data};
    ghost use Rattle.strip_world.specs.World.{WorldData};

    ghost Value = { WorldData };

    ghost view = { λ w. record {
      search = record { film = w.film; kind = w.kind; nodes = w.nodes; start = w.start; tasks = map path_data w.tasks.items };
      buckets = w.buckets;
      least = w.least;
      lines = w.lines.items;
      stripes = w.stripes.items;
      next = w.next;
      parts = map part_data w.parts.items;
      workers = map worker_data w.workers.items;
    } };

    ghost invariant = { λ w. (w.nodes ≤ 16777216) × (w.nodes ≤ vec_capacity w.lines) };
}

impl World {
    /// Returns the least cost so far, in units of money.
    pub fn least(&self) -> u64
        ensures { result ≡ self.now.least }
    {
        self.least
    }

    /// Returns the lines, in the order in which they were enlisted.
    pub fn lines(&self) -> &[Line]
        ensures { result.now ≡ self.now.lines }
    {
        &self.lines
    }

    /// Returns the lines by moving them. It allocates no memory.
    pub fn into_lines(self) -> Vec<Line>
        ensures { result.items ≡ self.lines }
    {
        self.lines
    }

    /// Returns a copy of the entries of a bucket of a stripe. Both numbers must be in range.
    pub fn entries(&self, stripe: u32, bucket: u32) -> Bucket
        requires stripe { stripe < length self.now.stripes }
        requires bucket { bucket < length (stripe_at self.now stripe) }
        ensures { bucket_data result ≡ bucket_at (stripe_at self.now stripe) bucket }
    {
        self.stripes[stripe as usize].entries(bucket)
    }

    /// Returns the best path that worker `who` offered, or the start path.
    pub fn best(&self, who: u32) -> &Path
        requires { who < length self.now.workers }
        ensures { path_data result.now ≡ (worker_at self.now who).best }
    {
        &self.workers[who as usize].best
    }
}
