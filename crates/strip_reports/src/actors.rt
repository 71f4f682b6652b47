// The table of the actors.
ghost use Rattle.std.specs.Prelude.{◌≡◌, ◌+◌, ◌*◌, ◌++◌, ◌<◌, ◌≤◌, length, map, position, reverse, IfOk, IfSome, OnOk};
ghost use Rattle.std.specs.List.{range_with_len};
ghost use Rattle.strip_mask.specs.Set.{has};
ghost use Rattle.strip_model.specs.Order.{IsOrder};
ghost use Rattle.strip_model.specs.FilmOf.{film_of};
ghost use Rattle.strip_reports.specs.Html.{begin_text, row_text, rows_text};
ghost use Rattle.strip_reports.specs.Actors.{actor_cells, actor_heads, actors_part, actors_table, earned_by, earned_by_all, first_day, last_day, total_cells};

use crate::days::{crews, hold_days, work_days};
use crate::html::{Cell, begin_table, begin_totals, end_table, push_row};
use std::alloc::Global;
use strip_io::Memory;
use strip_mask::Mask;
use strip_model::Instance;

/// Days and pay of one actor, or of all.
#[derive(Clone, Copy)]
struct Earned {
    /// Number of days of work.
    worked: u64,
    /// The pay for the days of work, in units of money.
    work_pay: u64,
    /// Number of days on which he is held.
    held: u64,
    /// The pay for the days on which he is held, in units of money.
    hold_pay: u64,
}

/// Appends the table of the actors, if there are any.
pub(crate) fn push_actors(
    alloc: Global,
    page: &mut Vec<u8>,
    inst: &Instance,
    order: &[u16],
) -> Result<(), Memory>
    requires { IsOrder (length inst.now.scenes) order.now }
    ensures { OnOk result (page.new.items ≡ page.old.items ++ actors_part inst.now order.now) }
{
    if inst.actors().is_empty() {
        return Ok(());
    }
    let crews = crews(alloc, inst, order)?;
    page.extend_from_slice(b"<h2>Actors</h2>\n")?;
    push_table(alloc, page, inst, &crews)
}

fn push_table(
    alloc: Global,
    page: &mut Vec<u8>,
    inst: &Instance,
    crews: &[u64],
) -> Result<(), Memory>
    requires { length crews.now ≤ 19800 }
    ensures { OnOk result (page.new.items ≡ page.old.items ++ actors_table inst.now crews.now) }
{
    push_heads(alloc, page)?;
    let total = push_rows(alloc, page, inst, crews)?;
    begin_totals(page)?;
    push_total(alloc, page, total)?;
    end_table(page)
}

/// Begins the table with its column heads.
fn push_heads(alloc: Global, page: &mut Vec<u8>) -> Result<(), Memory>
    ensures { OnOk result (page.new.items ≡ page.old.items ++ begin_text actor_heads) }
{
    begin_table(
        alloc,
        page,
        &[
            Cell::Word(b"Actor"),
            Cell::Word(b"First"),
            Cell::Word(b"Last"),
            Cell::Word(b"Days worked"),
            Cell::Word(b"Rate"),
            Cell::Word(b"Pay for work"),
            Cell::Word(b"Days held"),
            Cell::Word(b"Hold rate"),
            Cell::Word(b"Pay for holding"),
            Cell::Word(b"Pay"),
        ],
    )
}

/// Appends the rows of the actors, and returns their total.
fn push_rows(
    alloc: Global,
    page: &mut Vec<u8>,
    inst: &Instance,
    crews: &[u64],
) -> Result<Earned, Memory>
    requires { length crews.now ≤ 19800 }
    ensures rows { OnOk result (page.new.items ≡ page.old.items
        ++ rows_text (map (actor_cells inst.now crews.now) (range_with_len 0 (length inst.now.actors)))) }
    ensures sums { IfOk result (λ total. total ≡ earned_by_all (film_of inst.now) crews.now) }
    ensures small { IfOk result (λ total. total.work_pay + total.hold_pay ≤ 64 * (19800 * 2_000_000_000)) }
{
    let mut total = Earned {
        worked: 0,
        work_pay: 0,
        held: 0,
        hold_pay: 0,
    };
    for actor in 0..inst.actors().len() {
        let earned = earned_by(inst, crews, actor);
        push_actor(alloc, page, inst, crews, actor, earned)?;
        total = plus(total, earned);
    }
    Ok(total)
}

/// Returns the actor's days and pay.
fn earned_by(inst: &Instance, crews: &[u64], actor: usize) -> Earned
    requires few { length crews.now ≤ 19800 }
    requires actor { actor < length inst.now.actors }
    ensures earned { result ≡ earned_by (film_of inst.now) crews.now actor }
    ensures worked { result.worked ≤ 19800 }
    ensures work_pay { result.work_pay ≤ 19800 * 1_000_000_000 }
    ensures held { result.held ≤ 19800 }
    ensures hold_pay { result.hold_pay ≤ 19800 * 1_000_000_000 }
{
    let known = &inst.actors()[actor];
    let worked = work_days(crews, actor as u32);
    let held = hold_days(crews, actor as u32, worked);
    Earned {
        worked,
        work_pay: known.rate * worked,
        held,
        hold_pay: known.hold * held,
    }
}

fn plus(a: Earned, b: Earned) -> Earned
    requires worked { a.worked + b.worked ≤ 64 * 19800 }
    requires work_pay { a.work_pay + b.work_pay ≤ 64 * (19800 * 1_000_000_000) }
    requires held { a.held + b.held ≤ 64 * 19800 }
    requires hold_pay { a.hold_pay + b.hold_pay ≤ 64 * (19800 * 1_000_000_000) }
    ensures { result ≡ record { worked = a.worked + b.worked; work_pay = a.work_pay + b.work_pay; held = a.held + b.held; hold_pay = a.hold_pay + b.hold_pay } }
{
    Earned {
        worked: a.worked + b.worked,
        work_pay: a.work_pay + b.work_pay,
        held: a.held + b.held,
        hold_pay: a.hold_pay + b.hold_pay,
    }
}

/// Appends the row of the actor.
fn push_actor(
    alloc: Global,
    page: &mut Vec<u8>,
    inst: &Instance,
    crews: &[u64],
    actor: usize,
    earned: Earned,
) -> Result<(), Memory>
    requires few { length crews.now ≤ 19800 }
    requires actor { actor < length inst.now.actors }
    requires earned { earned ≡ earned_by (film_of inst.now) crews.now actor }
    requires small { earned.work_pay + earned.hold_pay ≤ 19800 * 2_000_000_000 }
    ensures { OnOk result (page.new.items ≡ page.old.items ++ row_text (actor_cells inst.now crews.now actor)) }
{
    let known = &inst.actors()[actor];
    push_row(
        alloc,
        page,
        &[
            Cell::Name(known.name.as_bytes()),
            Cell::Number(first_day(crews, actor as u32)),
            Cell::Number(last_day(crews, actor as u32)),
            Cell::Number(earned.worked),
            Cell::Number(known.rate),
            Cell::Number(earned.work_pay),
            Cell::Number(earned.held),
            Cell::Number(known.hold),
            Cell::Number(earned.hold_pay),
            Cell::Number(earned.work_pay + earned.hold_pay),
        ],
    )
}

/// Appends the row of the total.
fn push_total(alloc: Global, page: &mut Vec<u8>, total: Earned) -> Result<(), Memory>
    requires { total.work_pay + total.hold_pay ≤ 64 * (19800 * 2_000_000_000) }
    ensures { OnOk result (page.new.items ≡ page.old.items ++ row_text (total_cells total)) }
{
    push_row(
        alloc,
        page,
        &[
            Cell::Word(b"Total"),
            Cell::Empty,
            Cell::Empty,
            Cell::Number(total.worked),
            Cell::Empty,
            Cell::Number(total.work_pay),
            Cell::Number(total.held),
            Cell::Empty,
            Cell::Number(total.hold_pay),
            Cell::Number(total.work_pay + total.hold_pay),
        ],
    )
}

/// Returns the first day on which the actor works, counted from 1, or 0 if he never works.
fn first_day(crews: &[u64], actor: u32) -> u64
    requires few { length crews.now ≤ 19800 }
    requires actor { actor < 64 }
    ensures { result ≡ first_day crews.now actor }
{
    match place_from_front(crews, actor) {
        Some(place) => place as u64 + 1,
        None => 0,
    }
}

/// Returns the last day on which the actor works, counted from 1, or 0 if he never works.
fn last_day(crews: &[u64], actor: u32) -> u64
    requires few { length crews.now ≤ 19800 }
    requires actor { actor < 64 }
    ensures { result ≡ last_day crews.now actor }
{
    match place_from_end(crews, actor) {
        Some(place) => (crews.len() - place) as u64,
        None => 0,
    }
}

/// Returns the number of days before the first on which the actor works.
fn place_from_front(crews: &[u64], actor: u32) -> Option<usize>
    requires { actor < 64 }
    ensures place { result ≡ position (λ crew. has crew actor) crews.now }
    ensures within { IfSome result (λ place. place < length crews.now) }
{
    crews.iter().position(|crew| Mask(*crew).has(actor))
}

/// Returns the number of days after the last on which the actor works.
fn place_from_end(crews: &[u64], actor: u32) -> Option<usize>
    requires { actor < 64 }
    ensures place { result ≡ position (λ crew. has crew actor) (reverse crews.now) }
    ensures within { IfSome result (λ place. place < length crews.now) }
{
    crews.iter().rev().position(|crew| Mask(*crew).has(actor))
}
