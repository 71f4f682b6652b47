// The days of an order, and each actor's code for them.
ghost use Rattle.std.specs.Prelude.{◌≡◌, ◌+◌, ◌++◌, ◌<◌, ◌≤◌, ◌&&◌, All, length, map, not, nat_lt, replicate, count_by, IfOk, OnOk, ℕ, cond};
ghost use Rattle.std.specs.List.{range_with_len};
ghost use Rattle.strip_model.specs.Order.{IsOrder};
ghost use Rattle.strip_model.specs.FilmOf.{film_of};
ghost use Rattle.strip_mask.specs.Set.{has};
ghost use Rattle.strip_reports.specs.Days.{code, crews_of, day_code, hold_days, work_days};
ghost use Rattle.strip_reports.specs.Codes.{code_word};

use std::alloc::Global;
use strip_io::Memory;
use strip_mask::Mask;
use strip_model::Instance;

/// An actor's activity on a day.
#[derive(Clone, Copy)]
pub(crate) enum Code {
    /// The day is before his first day of work or after his last, or he has none.
    Away,
    /// His only day of work.
    Only,
    /// The first of several days of work.
    First,
    /// The last of several days of work.
    Last,
    /// A day of work between his first and last.
    Work,
    /// A day without work between his first and last.
    Hold,
}

impl Code {
    /// Returns the code's word in the report.
    pub(crate) fn word(self) -> &'static [u8]
        ensures { result.now ≡ code_word self }
    {
        match self {
            Code::Away => b"",
            Code::Only => b"SWF",
            Code::First => b"SW",
            Code::Last => b"WF",
            Code::Work => b"W",
            Code::Hold => b"H",
        }
    }
}

/// Returns for each day of the order the set of actors who work on it.
pub fn crews(alloc: Global, inst: &Instance, order: &[u16]) -> Result<Vec<u64>, Memory>
    requires { IsOrder (length inst.now.scenes) order.now }
    ensures crews { IfOk result (λ crews. crews.items ≡ crews_of (film_of inst.now) order.now) }
    ensures few { IfOk result (λ crews. length crews.items ≤ 19800) }
{
    let scenes = inst.scenes();
    let mut crews = Vec::new(alloc);
    for &scene in order {
        let shot = &scenes[scene as usize];
        push_days(&mut crews, shot.cast, shot.days)?;
    }
    Ok(crews)
}

fn push_days(crews: &mut Vec<u64>, cast: u64, days: u64) -> Result<(), Memory>
    ensures { OnOk result (crews.new.items ≡ crews.old.items ++ replicate days cast) }
{
    for _day in 0..days {
        crews.push(cast)?;
    }
    Ok(())
}

/// Returns the number of days on which the actor works.
pub fn work_days(crews: &[u64], actor: u32) -> u64
    requires few { length crews.now ≤ 19800 }
    requires actor { actor < 64 }
    ensures { result ≡ work_days crews.now actor }
{
    let mut work = 0;
    for &crew in crews {
        work = counted(work, Mask(crew).has(actor));
    }
    work
}

/// Returns the number of days on which the actor waits; `work` is the number of days on which he works.
pub fn hold_days(crews: &[u64], actor: u32, work: u64) -> u64
    requires few { length crews.now ≤ 19800 }
    requires actor { actor < 64 }
    requires work { work ≡ work_days crews.now actor }
    ensures { result ≡ hold_days crews.now actor }
{
    let mut done = 0;
    let mut hold = 0;
    for &crew in crews {
        let works = Mask(crew).has(actor);
        hold = counted(hold, waits(works, done, work));
        done = counted(done, works);
    }
    hold
}

/// Returns the codes of the actor's days; `work` is the number of days on which he works.
pub(crate) fn codes(
    alloc: Global,
    crews: &[u64],
    actor: u32,
    work: u64,
) -> Result<Vec<Code>, Memory>
    requires few { length crews.now ≤ 19800 }
    requires actor { actor < 64 }
    requires work { work ≡ work_days crews.now actor }
    ensures { IfOk result (λ codes. map code_word codes.items
        ≡ map (day_code crews.now actor) (range_with_len 0 (length crews.now))) }
{
    let mut codes = Vec::new(alloc);
    let mut done = 0;
    for &crew in crews {
        let works = Mask(crew).has(actor);
        let begun = 0 < done;
        done = counted(done, works);
        codes.push(code_of(works, begun, done < work))?;
    }
    Ok(codes)
}

/// Adds one to the count if the day is counted.
fn counted(count: u64, is_counted: bool) -> u64
    requires { count < 19800 }
    ensures { result ≡ count + cond {A = ℕ} is_counted 1 0 }
{
    if is_counted { count + 1 } else { count }
}

/// Tells whether the actor waits on a day. He worked on `done` of his `work` days before it.
fn waits(works: bool, done: u64, work: u64) -> bool
    ensures { result ≡ (not works && (nat_lt 0 done && nat_lt done work)) }
{
    !works && 0 < done && done < work
}

/// Returns the code of a day from whether the actor works on it, worked before and will work later.
fn code_of(works: bool, begun: bool, comes_back: bool) -> Code
    ensures { code_word result ≡ code works begun comes_back }
{
    match (works, begun, comes_back) {
        (true, false, false) => Code::Only,
        (true, false, true) => Code::First,
        (true, true, false) => Code::Last,
        (true, true, true) => Code::Work,
        (false, true, true) => Code::Hold,
        _ => Code::Away,
    }
}
