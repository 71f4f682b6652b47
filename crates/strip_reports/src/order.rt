// The shooting order, in tables of at most 24 actors each.
ghost use Rattle.std.specs.Prelude.{◌≡◌, ◌+◌, ◌-◌, ◌++◌, ◌<◌, ◌≤◌, [], length, map, min, if◌then◌else◌, OnOk};
ghost use Rattle.std.specs.List.{range_with_len};
ghost use Rattle.strip_model.specs.Order.{IsOrder};
ghost use Rattle.strip_model.specs.FilmOf.{film_of};
ghost use Rattle.strip_mask.specs.Set.{has};
ghost use Rattle.strip_reports.specs.Cells.{cell_data};
ghost use Rattle.strip_reports.specs.Html.{Upright, begin_text, row_text, rows_text};
ghost use Rattle.strip_reports.specs.Board.{actor_name, columns, is_last, mark_at, mark_of, order_cells, order_heads, order_part, order_table, order_totals};

use crate::figures::{cast_of, days_of, figures_at, held_at};
use crate::html::{Cell, begin_table, begin_totals, end_table, push_row};
use crate::summary::{name_of, pay_of};
use std::alloc::Global;
use strip_io::Memory;
use strip_mask::Mask;
use strip_model::Instance;

/// The greatest number of actors in a table.
const COLUMNS: usize = 24;

/// Appends the tables.
pub(crate) fn push_order(
    alloc: Global,
    page: &mut Vec<u8>,
    inst: &Instance,
    order: &[u16],
) -> Result<(), Memory>
    requires { IsOrder (length inst.now.scenes) order.now }
    ensures { OnOk result (page.new.items ≡ page.old.items ++ order_part inst.now order.now) }
{
    page.extend_from_slice(b"<h2>Shooting order</h2>\n")?;
    let tables = inst.actors().len().div_ceil(COLUMNS).max(1);
    for table in 0..tables {
        push_table(alloc, page, inst, order, table * COLUMNS)?;
    }
    Ok(())
}

/// Appends the table that begins with this actor.
fn push_table(
    alloc: Global,
    page: &mut Vec<u8>,
    inst: &Instance,
    order: &[u16],
    start: usize,
) -> Result<(), Memory>
    requires order { IsOrder (length inst.now.scenes) order.now }
    requires start { start ≤ length inst.now.actors }
    ensures { OnOk result (page.new.items ≡ page.old.items ++ order_table inst.now order.now start) }
{
    push_heads(alloc, page, inst, start)?;
    push_scenes(alloc, page, inst, order, start)?;
    begin_totals(page)?;
    push_total(alloc, page, inst, order, start)?;
    end_table(page)
}

/// Begins the table with its column heads.
fn push_heads(
    alloc: Global,
    page: &mut Vec<u8>,
    inst: &Instance,
    start: usize,
) -> Result<(), Memory>
    requires { start ≤ length inst.now.actors }
    ensures { OnOk result (page.new.items ≡ page.old.items ++ begin_text (order_heads inst.now start)) }
{
    let mut cells: Vec<Cell<'_>> = Vec::new(alloc);
    cells.extend_from_slice(&[
        Cell::Word(b"No."),
        Cell::Word(b"Scene"),
        Cell::Word(b"Days"),
        Cell::Word(b"First"),
        Cell::Word(b"Last"),
    ])?;
    push_names(&mut cells, inst, start)?;
    push_sums(
        &mut cells,
        inst,
        start,
        &[
            Cell::Word(b"Working"),
            Cell::Word(b"Held"),
            Cell::Word(b"Pay"),
        ],
    )?;
    begin_table(alloc, page, &cells)
}

/// Appends the heads of the actors' columns.
fn push_names<'n>(cells: &mut Vec<Cell<'n>>, inst: &'n Instance, start: usize) -> Result<(), Memory>
    requires { start ≤ length inst.now.actors }
    ensures { OnOk result (map cell_data cells.new.items ≡ map cell_data cells.old.items
        ++ map (λ actor. Upright (actor_name inst.now actor)) (columns (length inst.now.actors) start)) }
{
    for column in 0..width(inst, start) {
        cells.push(Cell::Upright(actor_name(inst, start + column)))?;
    }
    Ok(())
}

/// Appends the rows of the scenes.
fn push_scenes(
    alloc: Global,
    page: &mut Vec<u8>,
    inst: &Instance,
    order: &[u16],
    start: usize,
) -> Result<(), Memory>
    requires order { IsOrder (length inst.now.scenes) order.now }
    requires start { start ≤ length inst.now.actors }
    ensures { OnOk result (page.new.items ≡ page.old.items
        ++ rows_text (map (order_cells inst.now order.now start) (range_with_len 0 (length order.now)))) }
{
    for place in 0..order.len() {
        push_scene(alloc, page, inst, order, start, place)?;
    }
    Ok(())
}

/// Appends the row of the scene at this place.
fn push_scene(
    alloc: Global,
    page: &mut Vec<u8>,
    inst: &Instance,
    order: &[u16],
    start: usize,
    place: usize,
) -> Result<(), Memory>
    requires order { IsOrder (length inst.now.scenes) order.now }
    requires start { start ≤ length inst.now.actors }
    requires place { place < length order.now }
    ensures { OnOk result (page.new.items ≡ page.old.items ++ row_text (order_cells inst.now order.now start place)) }
{
    inst.keeps_limits();
    let figures = figures_at(inst, order, place);
    let mut cells: Vec<Cell<'_>> = Vec::new(alloc);
    cells.extend_from_slice(&[
        Cell::Number(place as u64 + 1),
        Cell::Name(name_of(inst, order[place])),
        Cell::Number(figures.days),
        Cell::Number(figures.first),
        Cell::Number(figures.last),
    ])?;
    push_marks(&mut cells, inst, order, start, place)?;
    push_sums(
        &mut cells,
        inst,
        start,
        &[
            Cell::Number(figures.working),
            Cell::Number(figures.holding),
            Cell::Number(figures.pay),
        ],
    )?;
    push_row(alloc, page, &cells)
}

/// Appends the marks of the table's actors for the scene at this place.
fn push_marks(
    cells: &mut Vec<Cell<'_>>,
    inst: &Instance,
    order: &[u16],
    start: usize,
    place: usize,
) -> Result<(), Memory>
    requires order { IsOrder (length inst.now.scenes) order.now }
    requires start { start ≤ length inst.now.actors }
    requires place { place < length order.now }
    ensures { OnOk result (map cell_data cells.new.items ≡ map cell_data cells.old.items
        ++ map (mark_at (film_of inst.now) order.now place) (columns (length inst.now.actors) start)) }
{
    let works = cast_of(inst, order[place]);
    let held = held_at(inst, order, place);
    for column in 0..width(inst, start) {
        cells.push(mark(works, held, (start + column) as u32))?;
    }
    Ok(())
}

/// Returns the actor's mark, if these actors work and these are held.
fn mark<'n>(works: Mask, held: Mask, actor: u32) -> Cell<'n>
    requires { actor < 64 }
    ensures { cell_data result ≡ mark_of (has works.0 actor) (has held.0 actor) }
{
    if works.has(actor) {
        Cell::Works
    } else if held.has(actor) {
        Cell::Held
    } else {
        Cell::Empty
    }
}

/// Appends these cells if the table that begins with this actor is the last one.
fn push_sums<'n>(
    cells: &mut Vec<Cell<'n>>,
    inst: &Instance,
    start: usize,
    sums: &[Cell<'n>],
) -> Result<(), Memory>
    requires { start ≤ length inst.now.actors }
    ensures { OnOk result (map cell_data cells.new.items ≡ map cell_data cells.old.items
        ++ (if is_last (length inst.now.actors) start then map cell_data sums.now else [])) }
{
    if !is_last(inst, start) {
        return Ok(());
    }
    cells.extend_from_slice(sums)?;
    Ok(())
}

/// Appends the row of totals, the number of days and the pay of the order, if the table is the last one.
fn push_total(
    alloc: Global,
    page: &mut Vec<u8>,
    inst: &Instance,
    order: &[u16],
    start: usize,
) -> Result<(), Memory>
    requires order { IsOrder (length inst.now.scenes) order.now }
    requires start { start ≤ length inst.now.actors }
    ensures { OnOk result (page.new.items ≡ page.old.items ++ rows_text (order_totals inst.now order.now start)) }
{
    if !is_last(inst, start) {
        return Ok(());
    }
    inst.keeps_limits();
    let mut cells: Vec<Cell<'_>> = Vec::new(alloc);
    cells.extend_from_slice(&[
        Cell::Empty,
        Cell::Word(b"Total"),
        Cell::Number(days_of(inst, order)),
        Cell::Empty,
        Cell::Empty,
    ])?;
    for _column in 0..width(inst, start) {
        cells.push(Cell::Empty)?;
    }
    cells.extend_from_slice(&[Cell::Empty, Cell::Empty, Cell::Number(pay_of(inst, order))])?;
    push_row(alloc, page, &cells)
}

/// Returns the number of actors in the table that begins with this actor.
fn width(inst: &Instance, start: usize) -> usize
    requires { start ≤ length inst.now.actors }
    ensures width { result ≡ min 24 (length inst.now.actors - start) }
    ensures few { start + result ≤ 64 }
{
    (inst.actors().len() - start).min(COLUMNS)
}

/// Tells whether the table that begins with this actor is the last one, which has the totals.
fn is_last(inst: &Instance, start: usize) -> bool
    requires { start ≤ length inst.now.actors }
    ensures { result ≡ is_last (length inst.now.actors) start }
{
    inst.actors().len() <= start + COLUMNS
}

fn actor_name(inst: &Instance, actor: usize) -> &[u8]
    requires { actor < length inst.now.actors }
    ensures { result.now ≡ actor_name inst.now actor }
{
    inst.actors()[actor].name.as_bytes()
}
