// Sums over the days of one actor, or of all.
ghost use Rattle.std.specs.Prelude.{◌≡◌, ◌*◌, ◌+◌, ◌≤◌, ◌<◌, length};
ghost use Rattle.strip_model.specs.FilmOf.{film_of};
ghost use Rattle.strip_reports.specs.Sums.{sums_of, total_of};

use crate::days::{hold_days, work_days};
use strip_model::Instance;

/// Number of days of work and of waiting, and the pay for them, in units of money.
#[derive(Clone, Copy)]
pub(crate) struct Sums {
    pub(crate) work: u64,
    pub(crate) hold: u64,
    pub(crate) pay: u64,
}

/// Returns the sums over the actor's days.
pub(crate) fn sums_of(inst: &Instance, crews: &[u64], actor: usize) -> Sums
    requires few { length crews.now ≤ 19800 }
    requires actor { actor < length inst.now.actors }
    ensures sums { result ≡ sums_of (film_of inst.now) crews.now actor }
    ensures work { result.work ≤ 19800 }
    ensures hold { result.hold ≤ 19800 }
    ensures pay { result.pay ≤ 19800 * 2_000_000_000 }
{
    let known = &inst.actors()[actor];
    let work = work_days(crews, actor as u32);
    let hold = hold_days(crews, actor as u32, work);
    Sums {
        work,
        hold,
        pay: known.rate * work + known.hold * hold,
    }
}

/// Returns the sums over the days of all actors.
pub(crate) fn total_of(inst: &Instance, crews: &[u64]) -> Sums
    requires few { length crews.now ≤ 19800 }
    ensures sums { result ≡ total_of (film_of inst.now) crews.now }
    ensures work { result.work ≤ 64 * 19800 }
    ensures hold { result.hold ≤ 64 * 19800 }
{
    let mut total = Sums {
        work: 0,
        hold: 0,
        pay: 0,
    };
    for actor in 0..inst.actors().len() {
        total = plus(total, sums_of(inst, crews, actor));
    }
    total
}

fn plus(a: Sums, b: Sums) -> Sums
    requires work { a.work + b.work ≤ 64 * 19800 }
    requires hold { a.hold + b.hold ≤ 64 * 19800 }
    requires pay { a.pay + b.pay ≤ 64 * (19800 * 2_000_000_000) }
    ensures { result ≡ record { work = a.work + b.work; hold = a.hold + b.hold; pay = a.pay + b.pay } }
{
    Sums {
        work: a.work + b.work,
        hold: a.hold + b.hold,
        pay: a.pay + b.pay,
    }
}
