// The rates and the hold rates: the actors' pay for a day of work, and for a day of waiting.
ghost use Rattle.std.specs.Prelude.{◌≡◌, ◌+◌, ◌++◌, ◌<◌, ◌≤◌, true, drop, length, map, IfOk, IfErr, OnOk};
ghost use Rattle.strip_model.specs.Instance.{actor_data};
ghost use Rattle.strip_text.specs.Number.{number_of};
ghost use Rattle.strip_text.specs.Rows.{field_of, row_of};
ghost use Rattle.strip_instance.specs.declared.fault.InstanceFault.TheVariants.{Memory as OutOfMemory};
ghost use Rattle.strip_instance.specs.Parts.{actor_fields, body_of, first_of, hold_of};
ghost use Rattle.strip_instance.specs.Checks.{Makes};
ghost use Rattle.strip_instance.specs.Faults.{hold_row_checks, pay_row_checks, rate_check, rate_checks, rate_row_checks};
ghost use Rattle.strip_instance.specs.Shown.{rate_fault, rows_from, strs};
ghost use Rattle.strip_instance.specs.Text.{actors_of, holds_of, paid_actors, rates_of};

use crate::fault::InstanceFault;
use crate::field::is_word;
use crate::kind::RateKind;
use crate::row::{actor_count, next_row};
use std::alloc::Global;
use strip_model::{Actor, MAX_RATE};
use strip_text::{Row, Rows, number_of};

/// The actors, and whether the row after the rates was read.
#[derive(Drop)]
pub(crate) struct Paid {
    pub actors: Vec<Actor>,
    pub there: bool,
}

/// Reads the rates and the hold rates from the next rows, and makes the actors with the header's names. If there is a
/// further row, `row` then has it.
pub(crate) fn read_actors(
    alloc: Global,
    header: &Row,
    names: &[&str],
    rows: &mut Rows<'_>,
    row: &mut Row,
) -> Result<Paid, InstanceFault>
    requires few { length (actor_fields header.now) ≤ 64 }
    requires first { rows.old.number ≡ 1 }
    requires names { strs names.now ≡ actor_fields header.now }
    ensures makes { Makes (rate_row_checks header.now (row_of rows.old.left 0)
        ++ hold_row_checks header.now (hold_of (drop 1 rows.old.left))) result }
    ensures actors { IfOk result (λ paid. map actor_data paid.actors.items ≡ paid_actors header.now rows.old.left) }
    ensures body { IfOk result (λ paid. rows_from paid.there row.new rows.new.left ≡ body_of (drop 1 rows.old.left)) }
    ensures counted { IfOk result (λ paid. (paid.there ≡ true) → rows.new.number ≡ first_of (drop 1 rows.old.left)) }
{
    let rates = read_rates(alloc, header, rows, row)?;
    let holds = read_holds(alloc, header, &rates, rows, row)?;
    let actors = actors_of(alloc, names, &rates, &holds.rates)?;
    Ok(Paid {
        actors,
        there: holds.there,
    })
}

/// Reads the rates from the next row.
fn read_rates(
    alloc: Global,
    header: &Row,
    rows: &mut Rows<'_>,
    row: &mut Row,
) -> Result<Vec<u64>, InstanceFault>
    requires { length (actor_fields header.now) ≤ 64 }
    ensures makes { Makes (rate_row_checks header.now (row_of rows.old.left 0)) result }
    ensures rates { IfOk result (λ rates. rates.items ≡ rates_of (row_of rows.old.left 0)) }
    ensures left { OnOk result (rows.new.left ≡ drop 1 rows.old.left) }
    ensures counted { OnOk result (rows.new.number ≡ rows.old.number + 1) }
{
    let there = next_row(rows, row)?;
    if !there || !is_word(b"rate", row.field(0)) {
        return Err(InstanceFault::NoRateRow);
    }
    read_pay_row(alloc, RateKind::Work, header, 2, row)
}

/// The hold rates, and whether the row after them was read.
#[derive(Drop)]
struct Holds {
    /// Each actor's rate for a day of waiting.
    rates: Vec<u64>,
    /// Whether there is a further row, which was read.
    there: bool,
}

/// Reads the hold rates from the next row, if it begins with their word; otherwise they equal the rates. If there is a
/// further row, `row` then has it.
fn read_holds(
    alloc: Global,
    header: &Row,
    rates: &[u64],
    rows: &mut Rows<'_>,
    row: &mut Row,
) -> Result<Holds, InstanceFault>
    requires few { length (actor_fields header.now) ≤ 64 }
    requires second { rows.old.number ≡ 2 }
    ensures makes { Makes (hold_row_checks header.now (hold_of rows.old.left)) result }
    ensures rates { IfOk result (λ holds. holds.rates.items ≡ holds_of rates.now (hold_of rows.old.left)) }
    ensures body { IfOk result (λ holds. rows_from holds.there row.new rows.new.left ≡ body_of rows.old.left) }
    ensures first { IfOk result (λ holds. (holds.there ≡ true) → rows.new.number ≡ first_of rows.old.left) }
{
    let there = next_row(rows, row)?;
    if !there || !is_word(b"hold", row.field(0)) {
        let rates = Vec::from_slice(alloc, rates)?;
        return Ok(Holds { rates, there });
    }
    let rates = read_pay_row(alloc, RateKind::Wait, header, 3, row)?;
    let there = next_row(rows, row)?;
    Ok(Holds { rates, there })
}

/// Reads the rates from the row with this number, which has to be as wide as the header.
fn read_pay_row(
    alloc: Global,
    kind: RateKind,
    header: &Row,
    number: u64,
    row: &Row,
) -> Result<Vec<u64>, InstanceFault>
    requires { length (actor_fields header.now) ≤ 64 }
    ensures makes { Makes (pay_row_checks (rate_fault kind) header.now number row.now) result }
    ensures rates { IfOk result (λ rates. rates.items ≡ rates_of row.now) }
{
    if row.len() != header.len() {
        return Err(InstanceFault::Width { row: number });
    }
    read_each_rate(alloc, kind, row)
}

fn read_each_rate(alloc: Global, kind: RateKind, row: &Row) -> Result<Vec<u64>, InstanceFault>
    requires { length (actor_fields row.now) ≤ 64 }
    ensures makes { Makes (rate_checks (rate_fault kind) row.now) result }
    ensures rates { IfOk result (λ rates. rates.items ≡ rates_of row.now) }
{
    let mut rates = Vec::new(alloc);
    for actor in 0..actor_count(row) {
        rates.push(read_rate(kind, row, actor)?)?;
    }
    Ok(rates)
}

/// Reads the rate of the actor with this number.
fn read_rate(kind: RateKind, row: &Row, actor: usize) -> Result<u64, InstanceFault>
    requires { actor < 64 }
    ensures makes { Makes (rate_check (rate_fault kind) row.now actor) result }
    ensures rate { IfOk result (λ rate. rate ≡ number_of (field_of (actor_fields row.now) actor)) }
{
    let col = actor as u64 + 3;
    number_of(row.field(actor + 2), 0, MAX_RATE).ok_or(kind.fault(col))
}

/// Makes the actors from names and rates, which are lists of one length.
fn actors_of(
    alloc: Global,
    names: &[&str],
    rates: &[u64],
    holds: &[u64],
) -> Result<Vec<Actor>, InstanceFault>
    requires rates { length rates.now ≡ length names.now }
    requires holds { length holds.now ≡ length names.now }
    ensures actors { IfOk result (λ actors. map actor_data actors.items
        ≡ actors_of (strs names.now) rates.now holds.now) }
    ensures memory { IfErr result (λ fault. fault ≡ OutOfMemory) }
{
    let mut actors = Vec::new(alloc);
    for (actor, name) in names.iter().enumerate() {
        let name = String::from_str(alloc, name)?;
        actors.push(Actor {
            name,
            rate: rates[actor],
            hold: holds[actor],
        })?;
    }
    Ok(actors)
}
