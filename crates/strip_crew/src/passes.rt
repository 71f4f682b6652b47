// Passes (ghost tokens of a worker's knowledge): split, joined and settled.
ghost use Rattle.std.specs.Prelude.{◌≡◌, ◌+◌, ◌<◌, ◌||◌, ℕ, suc, IfOk};
ghost use Rattle.strip_hand.specs.Hand.{IsHand};
ghost use Rattle.strip_least.specs.Pass.{best_path, known as known_least};
ghost use Rattle.strip_least.specs.Rule.{full_weight};
ghost use Rattle.strip_worker.specs.Team.{TakesOver};
ghost use Rattle.strip_crew.specs.Source.{source_home};
ghost use Rattle.strip_crew.specs.Sources.{Deals, split_home};
ghost use Rattle.strip_crew.specs.Crew.{ArePassesOf, AreSettled, HasSplit, NoPartLeft, Weigh, shown};

use crate::hub::HubParts;
use crate::sources::{join_source, split_source};
use std::alloc::Global;
use strip_book::Book;
use strip_book::laws::{
    entries_are_records, lines_of_entries_are_counted, other_parts_have_no_record,
};
use strip_io::Memory;
use strip_least::Least;

/// Splits off passes of weight 1 for a further worker, with a source of its own; the given passes get lighter by 1. The
/// new passes have all knowledge of the given ones and no claims, and use this desk.
pub(crate) fn split(
    alloc: Global,
    least: &Least,
    book: &Book,
    passes: &mut HubParts,
    desk: u32,
) -> Result<HubParts, Memory>
    requires passes { ArePassesOf least.now book.now passes.old }
    requires desk { desk < 64 }
    requires deals { Deals desk (split_home passes.old.source) }
    requires weight { (rest : ℕ) × Weigh (suc (suc rest)) passes.old }
    ensures { IfOk result (λ part. HasSplit least.now book.now passes.old part passes.new) }
{
    let source = split_source(alloc, &mut passes.source, desk)?;
    Ok(HubParts {
        told: passes.told.split(least),
        lines: passes.lines.split(book, desk),
        source,
    })
}

/// Joins another worker's passes into `into`: their weight, knowledge and parts.
pub(crate) fn join(least: &Least, book: &Book, into: &mut HubParts, other: HubParts)
    requires into { ArePassesOf least.now book.now into.old }
    requires other { ArePassesOf least.now book.now other }
    requires from { source_home other.source ≡ split_home into.old.source }
    ensures passes { ArePassesOf least.now book.now into.new }
    ensures heavier { (weight : ℕ) → Weigh weight into.old → Weigh 1 other → Weigh (weight + 1) into.new }
    ensures takes_over { TakesOver (shown into.old) (shown other) (shown into.new) }
    ensures home { split_home into.new.source ≡ split_home into.old.source }
    ensures left { NoPartLeft other → NoPartLeft into.new }
{
    other_parts_have_no_record();
    let HubParts {
        told,
        lines,
        source,
    } = other;
    into.told.join(least, told);
    into.lines.join(book, lines);
    join_source(&mut into.source, source);
}

/// Updates the passes to the least cost and all lines. After all others were joined into them, they have the full
/// weight. Then they have all records that count lines, and a best path of the least cost.
pub(crate) fn settle(least: &Least, book: &Book, passes: &mut HubParts)
    requires { ArePassesOf least.now book.now passes.old }
    ensures passes { ArePassesOf least.now book.now passes.new }
    ensures same { (weight : ℕ) → Weigh weight passes.old → Weigh weight passes.new }
    ensures settled { AreSettled passes.old passes.new }
    ensures limits { IsHand (shown passes.new) }
    ensures best { Weigh full_weight passes.old
        → (best_path passes.new.told).paid ≡ (known_least passes.new.told).told }
{
    entries_are_records();
    lines_of_entries_are_counted();
    passes.told.settle(least);
    passes.lines.settle(book);
}
