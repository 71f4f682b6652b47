// Making the world of a search.
ghost use Rattle.std.specs.Prelude.{◌≡◌, ◌<◌, IfOk, [], map, replicate};
ghost use Rattle.strip_film.specs.Path.{IsComplete};
ghost use Rattle.strip_film.specs.Shown.{path_data};
ghost use Rattle.strip_world.specs.Opened.{idle_worker, opened, search_of};
ghost use Rattle.strip_hand.specs.Limits.{AreLimits};
ghost use Rattle.strip_world.specs.Sound.{IsSound};
ghost use Rattle.strip_world.specs.Shown.{part_data, worker_data};
ghost use Rattle.strip_hand.specs.Search.{AreStarts};
ghost use Rattle.strip_world.specs.World.{no_part};

use crate::laws::steps_keep_worlds_sound;
use crate::state::{Part, Worker};
use crate::world::World;
use std::alloc::{AllocError, Global};
use strip_film::{Film, Path};
use strip_hand::Limits;
use strip_io::Memory;
use strip_model::Kind;
use strip_table::{STRIPES, Stripe};

impl World {
    /// Makes the world of a search of the film with bounds of this kind. It gets the start path, which is complete, the
    /// tasks, which have equal numbers of scenes, and the limits. It allocates all memory of the world, and fails only
    /// if memory runs out.
    pub fn new(
        alloc: Global,
        film: &Film,
        kind: Kind,
        start: &Path,
        tasks: &[Path],
        limits: &Limits,
    ) -> Result<World, Memory>
        requires start { IsComplete film.now (path_data start.now) }
        requires tasks { AreStarts (search_of film.now kind (path_data start.now)
            (map path_data tasks.now) limits.now) }
        requires limits { AreLimits limits.now }
        ensures opened { IfOk result (λ world. world
            ≡ opened film.now kind (path_data start.now) (map path_data tasks.now) limits.now) }
        ensures sound { IfOk result IsSound }
    {
        film.keeps_limits();
        steps_keep_worlds_sound();
        let buckets = limits.entries / 64;
        Ok(World {
            film: film.copy()?,
            kind,
            nodes: limits.nodes,
            start: start.paid(),
            tasks: tasks.to_vec(alloc)?,
            buckets,
            least: start.paid(),
            lines: Vec::with_capacity(alloc, limits.nodes as usize)?,
            stripes: empty_stripes(alloc, buckets)?,
            next: 0,
            parts: free_parts(alloc, tasks.len() + 1)?,
            workers: idle_workers(alloc, start, limits.workers as usize)?,
        })
    }
}

/// Makes 16 stripes of `buckets` empty buckets.
fn empty_stripes(alloc: Global, buckets: u32) -> Result<Vec<Stripe>, Memory>
    requires { 0 < buckets }
    ensures { IfOk result (λ stripes. stripes.items ≡ replicate 16 (replicate buckets [])) }
{
    let mut stripes = Vec::new(alloc);
    for _stripe in 0..STRIPES {
        stripes.push(Stripe::new(alloc, buckets)?)?;
    }
    Ok(stripes)
}

/// Makes `count` unclaimed parts.
fn free_parts(alloc: Global, count: usize) -> Result<Vec<Part>, AllocError>
    ensures { IfOk result (λ parts. map part_data parts.items ≡ replicate count no_part) }
{
    let parts = vec![in alloc; Part::free(); count]?;
    Ok(parts)
}

/// Makes `count` workers without events.
fn idle_workers(alloc: Global, start: &Path, count: usize) -> Result<Vec<Worker>, AllocError>
    ensures { IfOk result (λ workers. map worker_data workers.items
        ≡ replicate count (idle_worker (path_data start.now))) }
{
    let workers = vec![in alloc; Worker::of(start); count]?;
    Ok(workers)
}
