//! The Day Out of Days report: each actor's activity on each day of an order, and his pay.
ghost use Rattle.std.specs.Prelude.{◌≡◌, ◌+◌, ◌*◌, ◌++◌, ◌<◌, ◌≤◌, [], length, map, replicate, codes, IfOk, OnOk};
ghost use Rattle.std.specs.List.{range_with_len};
ghost use Rattle.std.specs.Fmt.{decimal};
ghost use Rattle.std.specs.String.{string_bytes};
ghost use Rattle.strip_model.specs.Order.{IsOrder};
ghost use Rattle.strip_model.specs.FilmOf.{film_of};
ghost use Rattle.strip_text.specs.Rows.{csv_row, csv_text};
ghost use Rattle.strip_reports.specs.Codes.{code_word};
ghost use Rattle.strip_reports.specs.Text.{actor_fields, day_number, dood_text, header_fields, row_of, rows_by_crews, total_fields};

use crate::days::{Code, codes, crews};
use crate::sums::{Sums, sums_of, total_of};
use std::alloc::Global;
use strip_io::Memory;
use strip_model::Instance;
use strip_text::Text;

/// Returns the Day Out of Days report of the order. It has a row for each actor: his codes, his days of work and of
/// waiting, and his pay for them in units of money. A row of sums follows. It fails only if memory runs out, and takes
/// time and memory in proportion to the size of the text.
pub fn dood(alloc: Global, inst: &Instance, order: &[u16]) -> Result<Vec<u8>, Memory>
    requires order { IsOrder (length inst.now.scenes) order.now }
    ensures text { IfOk result (λ text. text.items ≡ dood_text inst.now order.now) }
{
    let crews = crews(alloc, inst, order)?;
    let mut text = Text::new(alloc);
    write_rows(alloc, &mut text, inst, &crews)?;
    text.into_bytes()
}

/// Writes all rows to an empty text.
fn write_rows(alloc: Global, text: &mut Text, inst: &Instance, crews: &[u64]) -> Result<(), Memory>
    requires few { length crews.now ≤ 19800 }
    requires none { text.old ≡ [] }
    ensures { OnOk result (text.new ≡ csv_text (rows_by_crews inst.now crews.now)) }
{
    write_header(alloc, text, crews.len())?;
    write_actors(alloc, text, inst, crews)?;
    write_total(alloc, text, inst, crews)
}

fn write_header(alloc: Global, text: &mut Text, days: usize) -> Result<(), Memory>
    requires { days ≤ 19800 }
    ensures { OnOk result (text.new ≡ text.old ++ csv_row (header_fields days)) }
{
    let numbers = day_numbers(alloc, days)?;
    let mut fields: Vec<&[u8]> = Vec::new(alloc);
    let ahead: [&[u8]; 2] = [b"actor", b"rate"];
    fields.extend_from_slice(&ahead)?;
    for number in &numbers {
        fields.push(number.as_bytes())?;
    }
    let behind: [&[u8]; 4] = [b"work", b"hold", b"paid", b"pay"];
    fields.extend_from_slice(&behind)?;
    text.push(&fields)
}

/// Returns the numbers of the days in decimal digits.
fn day_numbers(alloc: Global, days: usize) -> Result<Vec<String>, Memory>
    requires { days ≤ 19800 }
    ensures { IfOk result (λ numbers. map (λ number. string_bytes number) numbers.items
        ≡ map day_number (range_with_len 0 days)) }
{
    let mut numbers = Vec::new(alloc);
    for day in 0..days {
        numbers.push((day + 1).to_string(alloc)?)?;
    }
    Ok(numbers)
}

fn write_actors(
    alloc: Global,
    text: &mut Text,
    inst: &Instance,
    crews: &[u64],
) -> Result<(), Memory>
    requires few { length crews.now ≤ 19800 }
    ensures { OnOk result (text.new
        ≡ text.old ++ csv_text (map (actor_fields inst.now crews.now) (range_with_len 0 (length inst.now.actors)))) }
{
    for actor in 0..inst.actors().len() {
        write_actor(alloc, text, inst, crews, actor)?;
    }
    Ok(())
}

fn write_actor(
    alloc: Global,
    text: &mut Text,
    inst: &Instance,
    crews: &[u64],
    actor: usize,
) -> Result<(), Memory>
    requires few { length crews.now ≤ 19800 }
    requires actor { actor < length inst.now.actors }
    ensures { OnOk result (text.new ≡ text.old ++ csv_row (actor_fields inst.now crews.now actor)) }
{
    let known = &inst.actors()[actor];
    let sums = sums_of(inst, crews, actor);
    let rate = known.rate.to_string(alloc)?;
    let days = codes(alloc, crews, actor as u32, sums.work)?;
    write_row(
        alloc,
        text,
        known.name.as_bytes(),
        rate.as_bytes(),
        &days,
        sums,
    )
}

fn write_total(alloc: Global, text: &mut Text, inst: &Instance, crews: &[u64]) -> Result<(), Memory>
    requires few { length crews.now ≤ 19800 }
    ensures { OnOk result (text.new ≡ text.old ++ csv_row (total_fields inst.now crews.now)) }
{
    let days = empty_days(alloc, crews.len())?;
    write_row(alloc, text, b"total", b"", &days, total_of(inst, crews))
}

fn empty_days(alloc: Global, count: usize) -> Result<Vec<Code>, Memory>
    ensures { IfOk result (λ days. map code_word days.items ≡ replicate count []) }
{
    let mut days = Vec::new(alloc);
    for _day in 0..count {
        days.push(Code::Away)?;
    }
    Ok(days)
}

/// Writes a row of two fields, the days' codes, and the sums.
fn write_row(
    alloc: Global,
    text: &mut Text,
    first: &[u8],
    second: &[u8],
    days: &[Code],
    sums: Sums,
) -> Result<(), Memory>
    requires { sums.work + sums.hold ≤ 2_534_400 }
    ensures { OnOk result (text.new
        ≡ text.old ++ csv_row (row_of first.now second.now (map code_word days.now) sums)) }
{
    let work = sums.work.to_string(alloc)?;
    let hold = sums.hold.to_string(alloc)?;
    let paid = (sums.work + sums.hold).to_string(alloc)?;
    let pay = sums.pay.to_string(alloc)?;
    let mut fields: Vec<&[u8]> = Vec::new(alloc);
    fields.extend_from_slice(&[first, second])?;
    for &day in days {
        fields.push(day.word())?;
    }
    fields.extend_from_slice(&[
        work.as_bytes(),
        hold.as_bytes(),
        paid.as_bytes(),
        pay.as_bytes(),
    ])?;
    text.push(&fields)
}
