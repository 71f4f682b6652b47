// Sources of a worker's parts.
ghost use Rattle.std.specs.Prelude.{◌≡◌, MatchOption};
ghost use Rattle.strip_least.specs.Pass.{Claims, IsPassOf, known};
ghost use Rattle.strip_steal.specs.Taker.{IsTaker, StayAt, taker_queues, taker_shares};
ghost use Rattle.strip_crew.specs.Source.{Draws, FindsNone, GivesPart, IsSource};
ghost use Rattle.strip_crew.specs.declared.source.Source.TheVariants.{Counter};

use std::sync::Wait;
use strip_least::{Least, LeastPass};
use strip_steal::{Pool, Taker};

/// A worker who takes no task himself, but gathers in the pool the numbers that the takers took.
#[derive(Drop)]
pub struct Gatherer {
    pub pool: Pool,
    /// Whether he was told that there is no part for him.
    pub has_ended: bool,
}

/// The source of a worker's parts.
#[derive(Drop)]
pub enum Source {
    /// The shared counter of the next part.
    Counter,
    /// No further part: the counter had the front only. The tasks that takers took are gathered here.
    Gathers(Gatherer),
    /// The queues of a pool, which have all parts but the front.
    Takes(Taker),
}

/// Returns the next part for a worker with this pass and this source, or none.
pub(crate) fn next_part<R: Wait>(
    rt: &R,
    least: &Least,
    told: &mut LeastPass,
    source: &mut Source,
) -> Option<u32>
    requires pass { IsPassOf least.now told.old }
    requires source { IsSource source.old (known told.old).parts (known told.old).claims }
    ensures pass { IsPassOf least.now told.new }
    ensures draws { Draws source.old (known told.old) result source.new (known told.new) }
    ensures counter { source.old ≡ Counter → (source.new ≡ Counter) × Claims (known told.old) result (known told.new) }
{
    match source {
        Source::Counter => told.claim(least),
        Source::Gathers(gatherer) => {
            gatherer.has_ended = true;
            None
        }
        Source::Takes(taker) => taken_part(rt, taker),
    }
}

/// Takes the next number of a taker, as a part.
fn taken_part<R: Wait>(rt: &R, taker: &mut Taker) -> Option<u32>
    requires { IsTaker taker.old }
    ensures taker { IsTaker taker.new }
    ensures stays { StayAt (taker_queues taker.old) (taker_queues taker.new) (taker_shares taker.old)
        (taker_shares taker.new) }
    ensures answer { MatchOption result (FindsNone taker.old taker.new) (λ part. GivesPart taker.old part taker.new) }
{
    let one = taker.take(rt)?;
    Some(one.number)
}
