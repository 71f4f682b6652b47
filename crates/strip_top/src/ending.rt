// The search of a film from a given path, with trimming.
ghost use denote.Param.Send.{IsSync};
ghost use Rattle.std.specs.Prelude.{◌≡◌, ℕ, ◌<◌, ◌≤◌, All, IfOk};
ghost use Rattle.strip_film.specs.Film.{LiesIn};
ghost use Rattle.strip_film.specs.Path.{IsComplete};
ghost use Rattle.strip_film.specs.Shown.{path_data};
ghost use Rattle.strip_layers.specs.Asks.{AreAnswered};
ghost use Rattle.strip_layers.specs.Layered.{IsLayered};
ghost use Rattle.strip_layers.specs.Search.{AreTrue};
ghost use Rattle.strip_layers.specs.Shown.{layered_data};
ghost use Rattle.strip_lines.specs.Ended.{IsEnded, ended_data};
ghost use Rattle.strip_solve.specs.Answer.{MayBe};
ghost use Rattle.strip_top.specs.Closed.{IsClosed};

use crate::setup::{Setup, Team};
use std::alloc::Global;
use std::sync::Wait;
use std::thread::Threads;
use strip_alone::alone_through;
use strip_bound::Bounds;
use strip_crew::{Beside, Race, answer_beside, race};
use strip_film::laws::{kept_orders_are_ready_lists, steps_add_up_to_the_pay};
use strip_film::{Line, Path};
use strip_hand::{Gate, Limits};
use strip_io::Memory;
use strip_layers::{Alone, Ask, Found, FoundBounds, Layered, search_by_layers};
use strip_lines::Ended;
use strip_memo::Memo;
use strip_solve::trimmed;

/// The result of a search. It has the lines that its bound needs, if this bound is the lesser of its cost and the cost
/// of the rows' order.
#[derive(Debug, Drop)]
pub(crate) struct Closed {
    pub ended: Ended,
    pub trimmed: Option<Vec<Line>>,
}

/// Runs the search from this path with one worker: by layers if the options have steps, otherwise depth-first.
pub(crate) fn end_alone<B: Bounds, G: Gate>(
    bounds: &B,
    begun: &Path,
    setup: &Setup<G>,
) -> Result<Closed, Memory>
    requires begun { IsComplete B.film (path_data begun.now) }
    requires options { MayBe setup.now.options }
    ensures { IfOk result (IsClosed B.kind B.film (path_data begun.now) setup.now.options.nodes setup.now.own) }
{
    match setup.options.steps {
        None => walk_alone(bounds, begun, setup),
        Some(steps) => layers_alone(bounds, begun, steps, setup),
    }
}

/// Runs the depth-first search with one worker.
fn walk_alone<B: Bounds, G: Gate>(
    bounds: &B,
    begun: &Path,
    setup: &Setup<G>,
) -> Result<Closed, Memory>
    requires begun { IsComplete B.film (path_data begun.now) }
    requires options { MayBe setup.now.options }
    ensures { IfOk result (IsClosed B.kind B.film (path_data begun.now) setup.now.options.nodes setup.now.own) }
{
    let mut memo = Memo::new(setup.alloc, bounds)?;
    let ended = alone_through(
        setup.alloc,
        bounds,
        &mut memo,
        begun,
        setup.options.nodes,
        setup.options.entries,
        &setup.gate,
    )?;
    let trimmed = trimmed(setup.alloc, bounds, &mut memo, &ended, setup.own)?;
    Ok(Closed { ended, trimmed })
}

/// Runs the depth-first search with several workers.
pub(crate) fn walk_beside<R: Threads + Wait + Sync, B: Bounds + Send + Sync, G: Gate>(
    team: &Team<R>,
    bounds: &B,
    begun: &Path,
    setup: &Setup<G>,
) -> Result<Closed, Memory>
    requires begun { IsComplete B.film (path_data begun.now) }
    requires options { MayBe setup.now.options }
    requires workers { (2 ≤ team.now.workers) × (team.now.workers ≤ 64) }
    ensures { IfOk result (IsClosed B.kind B.film (path_data begun.now) setup.now.options.nodes setup.now.own) }
{
    let limits = Limits {
        workers: team.workers,
        nodes: setup.options.nodes,
        entries: setup.options.entries,
    };
    let lent = Race {
        rt: team.rt,
        alloc: setup.alloc,
        bounds,
        gate: &setup.gate,
        limits,
        steal: setup.options.steal,
    };
    // The caller has a memo too.
    let mut memo = Memo::among(setup.alloc, bounds, team.workers + 1)?;
    let ended = race(&lent, &mut memo, begun)?;
    let trimmed = trimmed(setup.alloc, bounds, &mut memo, &ended, setup.own)?;
    Ok(Closed { ended, trimmed })
}

/// Runs the search by layers with one worker, in `steps` steps.
fn layers_alone<B: Bounds, G: Gate>(
    bounds: &B,
    begun: &Path,
    steps: u32,
    setup: &Setup<G>,
) -> Result<Closed, Memory>
    requires begun { IsComplete B.film (path_data begun.now) }
    requires some { 1 ≤ setup.now.options.nodes }
    ensures { IfOk result (IsClosed B.kind B.film (path_data begun.now) setup.now.options.nodes setup.now.own) }
{
    let answers = Alone { bounds };
    let nodes = setup.options.nodes;
    let layered = search_by_layers(setup.alloc, &answers, &setup.gate, begun, steps, nodes)?;
    close_layers(bounds, begun, setup, layered)
}

/// Runs the search by layers with several workers, who answer the requests of each layer in parallel. The result
/// doesn't depend on their number.
pub(crate) fn layers_beside<R: Threads + Sync, B: Bounds + Sync, G: Gate>(
    team: &Team<R>,
    bounds: &B,
    begun: &Path,
    steps: u32,
    setup: &Setup<G>,
) -> Result<Closed, Memory>
    requires begun { IsComplete B.film (path_data begun.now) }
    requires some { 1 ≤ setup.now.options.nodes }
    requires workers { 0 < team.now.workers }
    ensures { IfOk result (IsClosed B.kind B.film (path_data begun.now) setup.now.options.nodes setup.now.own) }
{
    let rt = team.rt;
    let alloc = setup.alloc;
    let workers = team.workers;
    let by = |asks: &mut [Ask]| -> Result<(), Memory>
        requires { IsSync R.row × IsSync B.row × (0 < workers)
            × All (λ ask. LiesIn B.film ask.set) asks.old }
        ensures { IfOk result (λ _. AreAnswered B.kind B.film asks.old asks.new) }
    { answer_beside(rt, alloc, bounds, workers, asks) };
    let answers = Beside { bounds, by };
    let nodes = setup.options.nodes;
    let layered = search_by_layers(alloc, &answers, &setup.gate, begun, steps, nodes)?;
    close_layers(bounds, begun, setup, layered)
}

/// Makes the trimmed result of a search by layers from this path. Trimming uses the static bounds that the search
/// found.
fn close_layers<B: Bounds, G: Gate>(
    bounds: &B,
    begun: &Path,
    setup: &Setup<G>,
    layered: Layered,
) -> Result<Closed, Memory>
    requires layered { IsLayered B.kind B.film (path_data begun.now) setup.now.options.nodes (layered_data layered) }
    requires found { AreTrue B.kind B.film layered.found.values.entries }
    ensures { IfOk result (IsClosed B.kind B.film (path_data begun.now) setup.now.options.nodes setup.now.own) }
{
    let nodes = setup.options.nodes;
    let (ended, found) = ended_of(setup.alloc, bounds, begun, nodes, layered)?;
    let known = FoundBounds::new(&found, bounds);
    let mut memo = Memo::new(setup.alloc, &known)?;
    let trimmed = trimmed(setup.alloc, &known, &mut memo, &ended, setup.own)?;
    Ok(Closed { ended, trimmed })
}

/// Makes the result of a search by layers from this path, with at most `nodes` lines, and the static bounds that the
/// search found.
fn ended_of<B: Bounds>(
    alloc: Global,
    bounds: &B,
    begun: &Path,
    nodes: u32,
    layered: Layered,
) -> Result<(Ended, Found), Memory>
    requires { IsLayered B.kind B.film (path_data begun.now) nodes (layered_data layered) }
    ensures ended { IfOk result (λ parts. IsEnded B.kind B.film (path_data begun.now) nodes (ended_data parts.0)) }
    ensures found { IfOk result (λ parts. parts.1 ≡ layered.found) }
{
    kept_orders_are_ready_lists();
    steps_add_up_to_the_pay();
    bounds.film().keeps_limits();
    let Layered {
        lines,
        bound,
        best,
        is_spent,
        found,
    } = layered;
    let ended = Ended {
        order: best.scenes().to_vec(alloc)?,
        cost: best.paid(),
        bound,
        held: lines.len() as u64,
        lines,
        spent: is_spent,
    };
    Ok((ended, found))
}
