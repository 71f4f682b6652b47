// The work-stealing queues of tasks.
ghost use Rattle.std.specs.Prelude.{◌≡◌, ◌≤◌, ◌++◌, ℕ, IfOk, length};
ghost use Rattle.strip_front.specs.Shown.{front_data};
ghost use Rattle.strip_crew.specs.Crew.{ArePassesOf, shown};
ghost use Rattle.strip_crew.specs.Race.{ArePartsOf, HasOnlyFront, IsReady, part_if, parts_where};

use crate::hub::HubParts;
use crate::source::{Gatherer, Source};
use std::alloc::Global;
use strip_book::Book;
use strip_front::Front;
use strip_io::Memory;
use strip_least::Least;
use strip_steal::pool;

/// Makes the passes ready for the workers. With work stealing, the parts of all tasks are put into queues, one for each
/// worker, with wanted tasks first. The passes will then collect the parts that the workers took. These passes have
/// claimed the front only.
pub(crate) fn with_source(
    alloc: Global,
    least: &Least,
    book: &Book,
    front: &Front,
    workers: u32,
    steal: bool,
    passes: HubParts,
) -> Result<HubParts, Memory>
    requires passes { ArePassesOf least.now book.now passes }
    requires only { HasOnlyFront passes }
    requires tasks { (shown passes).search.tasks ≡ (front_data front.now).tasks }
    requires wanted { length (front_data front.now).wanted ≡ length (front_data front.now).tasks }
    requires workers { (1 ≤ workers) × (workers ≤ 64) }
    ensures { IfOk result (IsReady least.now book.now workers passes) }
{
    if !steal {
        return Ok(passes);
    }
    let numbers = parts_in_turn(alloc, &front.wanted)?;
    let pool = pool(alloc, workers, &numbers)?;
    let HubParts { told, lines, .. } = passes;
    let gatherer = Gatherer {
        pool,
        has_ended: false,
    };
    Ok(HubParts {
        told,
        lines,
        source: Source::Gathers(gatherer),
    })
}

/// Returns the parts of all tasks: the wanted ones in their order, and then the others.
fn parts_in_turn(alloc: Global, wanted: &[bool]) -> Result<Vec<u32>, Memory>
    requires { length wanted.now ≤ 16777216 }
    ensures { IfOk result (λ numbers. ArePartsOf (length wanted.now) numbers.items) }
{
    let mut numbers = Vec::with_capacity(alloc, wanted.len())?;
    push_parts(&mut numbers, wanted, true)?;
    push_parts(&mut numbers, wanted, false)?;
    Ok(numbers)
}

/// Appends the parts of the wanted tasks, or of the others.
fn push_parts(numbers: &mut Vec<u32>, wanted: &[bool], asked: bool) -> Result<(), Memory>
    requires { length wanted.now ≤ 16777216 }
    ensures { IfOk result (λ _. numbers.new.items ≡ numbers.old.items ++ parts_where asked 1 wanted.now) }
{
    for task in 0..wanted.len() {
        push_part(numbers, task as u32 + 1, wanted[task] == asked)?;
    }
    Ok(())
}

/// Appends the part, if `is_asked` holds.
fn push_part(numbers: &mut Vec<u32>, part: u32, is_asked: bool) -> Result<(), Memory>
    ensures { IfOk result (λ _. numbers.new.items ≡ numbers.old.items ++ part_if is_asked part) }
{
    if is_asked {
        numbers.push(part)?;
    }
    Ok(())
}
