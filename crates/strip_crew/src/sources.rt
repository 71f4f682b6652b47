// Sources from which the workers take their parts: a counter or queues.
ghost use Rattle.std.specs.Prelude.{◌≡◌, ℕ, suc, List, IfOk};
ghost use Rattle.strip_crew.specs.declared.source.Source.TheVariants.{Gathers};
ghost use Rattle.strip_crew.specs.Source.{IsSource, source_home};
ghost use Rattle.strip_crew.specs.Sources.{Bears, Deals, JoinsSource, Splits, split_home};

use crate::source::{Gatherer, Source};
use std::alloc::Global;
use strip_io::Memory;

/// Makes the source of a further worker, at this desk.
pub(crate) fn split_source(alloc: Global, source: &mut Source, desk: u32) -> Result<Source, Memory>
    requires deals { Deals desk (split_home source.old) }
    requires weight { (rest : ℕ) × Bears (suc (suc rest)) source.old }
    ensures { IfOk result (λ part. Splits source.old part source.new) }
{
    match source {
        Source::Counter => Ok(Source::Counter),
        Source::Gathers(gatherer) => Ok(Source::Takes(gatherer.pool.taker(alloc, desk)?)),
        Source::Takes(_) => Err(Memory),
    }
}

/// Collects what another worker took from its source.
pub(crate) fn join_source(into: &mut Source, other: Source)
    requires home { source_home other ≡ split_home into.old }
    requires source { (parts : ℕ) × (claims : List ℕ) × IsSource into.old parts claims }
    requires other { (parts : ℕ) × (claims : List ℕ) × IsSource other parts claims }
    ensures { JoinsSource into.old other into.new }
{
    match into {
        Source::Counter => {}
        Source::Gathers(gatherer) => gather_from(gatherer, other),
        Source::Takes(_) => {}
    }
}

/// Collects what another worker took from its queues.
fn gather_from(gatherer: &mut Gatherer, other: Source)
    requires home { source_home other ≡ split_home (Gathers gatherer.old) }
    requires pool { (parts : ℕ) × (claims : List ℕ) × IsSource (Gathers gatherer.old) parts claims }
    requires other { (parts : ℕ) × (claims : List ℕ) × IsSource other parts claims }
    ensures { JoinsSource (Gathers gatherer.old) other (Gathers gatherer.new) }
{
    match other {
        Source::Counter => {}
        Source::Gathers(_) => {}
        Source::Takes(taker) => {
            gatherer.pool.gather(taker);
        }
    }
}
