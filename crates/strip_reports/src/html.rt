// Names, cells and tables of HTML 5.
ghost use Rattle.std.specs.Prelude.{◌≡◌, ◌++◌, map, codes, OnOk};
ghost use Rattle.std.specs.List.{flat_map};
ghost use Rattle.strip_reports.specs.Html.{begin_text, cell_text, end_tag, escape, escaped, isolated, row_text, totals_tag};
ghost use Rattle.strip_reports.specs.Cells.{cell_data};

use std::alloc::Global;
use strip_io::Memory;

/// A cell of a table.
#[derive(Clone, Copy)]
pub(crate) enum Cell<'n> {
    /// A fixed word.
    Word(&'static [u8]),
    /// A name.
    Name(&'n [u8]),
    /// A name at the head of a narrow column.
    Upright(&'n [u8]),
    Number(u64),
    /// The actor works.
    Works,
    /// The actor is held.
    Held,
    Empty,
}

/// Begins a table with the row of its heads.
pub(crate) fn begin_table(
    alloc: Global,
    page: &mut Vec<u8>,
    heads: &[Cell<'_>],
) -> Result<(), Memory>
    ensures { OnOk result (page.new.items ≡ page.old.items ++ begin_text (map cell_data heads.now)) }
{
    page.extend_from_slice(b"<table>\n<thead>\n")?;
    push_row(alloc, page, heads)?;
    page.extend_from_slice(b"</thead>\n<tbody>\n")?;
    Ok(())
}

/// Ends the rows of a table, before its totals.
pub(crate) fn begin_totals(page: &mut Vec<u8>) -> Result<(), Memory>
    ensures { OnOk result (page.new.items ≡ page.old.items ++ totals_tag) }
{
    page.extend_from_slice(b"</tbody>\n<tbody class=\"totals\">\n")?;
    Ok(())
}

/// Ends a table.
pub(crate) fn end_table(page: &mut Vec<u8>) -> Result<(), Memory>
    ensures { OnOk result (page.new.items ≡ page.old.items ++ end_tag) }
{
    page.extend_from_slice(b"</tbody>\n</table>\n")?;
    Ok(())
}

/// Appends a row of these cells.
pub(crate) fn push_row(alloc: Global, page: &mut Vec<u8>, cells: &[Cell<'_>]) -> Result<(), Memory>
    ensures { OnOk result (page.new.items ≡ page.old.items ++ row_text (map cell_data cells.now)) }
{
    page.extend_from_slice(b"<tr>")?;
    for cell in cells {
        push_cell(alloc, page, *cell)?;
    }
    page.extend_from_slice(b"</tr>\n")?;
    Ok(())
}

fn push_cell(alloc: Global, page: &mut Vec<u8>, cell: Cell<'_>) -> Result<(), Memory>
    ensures { OnOk result (page.new.items ≡ page.old.items ++ cell_text (cell_data cell.entry)) }
{
    match cell {
        Cell::Word(words) => push_all(page, &[b"<th>", words, b"</th>"]),
        Cell::Name(name) => push_head(page, b"<th class=\"name\">", name),
        Cell::Upright(name) => push_head(page, b"<th class=\"upright\">", name),
        Cell::Number(number) => {
            let digits = number.to_string(alloc)?;
            push_all(page, &[b"<td>", digits.as_bytes(), b"</td>"])
        }
        Cell::Works => push_all(page, &[b"<td class=\"works\">W</td>"]),
        Cell::Held => push_all(page, &[b"<td class=\"held\">H</td>"]),
        Cell::Empty => push_all(page, &[b"<td></td>"]),
    }
}

/// Appends a head that is a name.
fn push_head(page: &mut Vec<u8>, tag: &[u8], name: &[u8]) -> Result<(), Memory>
    ensures { OnOk result (page.new.items ≡ page.old.items ++ (tag.now ++ isolated name.now ++ codes "</th>")) }
{
    page.extend_from_slice(tag)?;
    push_name(page, name)?;
    page.extend_from_slice(b"</th>")?;
    Ok(())
}

/// Appends a name in an element that isolates its writing direction.
pub(crate) fn push_name(page: &mut Vec<u8>, name: &[u8]) -> Result<(), Memory>
    ensures { OnOk result (page.new.items ≡ page.old.items ++ isolated name.now) }
{
    page.extend_from_slice(b"<bdi>")?;
    push_escaped(page, name)?;
    page.extend_from_slice(b"</bdi>")?;
    Ok(())
}

/// Appends a name with its markup characters as entities.
fn push_escaped(page: &mut Vec<u8>, name: &[u8]) -> Result<(), Memory>
    ensures { OnOk result (page.new.items ≡ page.old.items ++ escaped name.now) }
{
    for byte in name {
        push_byte(page, *byte)?;
    }
    Ok(())
}

fn push_byte(page: &mut Vec<u8>, byte: u8) -> Result<(), Memory>
    ensures { OnOk result (page.new.items ≡ page.old.items ++ escape byte) }
{
    match byte {
        b'&' => page.extend_from_slice(b"&amp;")?,
        b'<' => page.extend_from_slice(b"&lt;")?,
        b'>' => page.extend_from_slice(b"&gt;")?,
        b'"' => page.extend_from_slice(b"&quot;")?,
        b'\'' => page.extend_from_slice(b"&#39;")?,
        other => page.push(other)?,
    }
    Ok(())
}

/// Appends the pieces in turn.
pub(crate) fn push_all(page: &mut Vec<u8>, pieces: &[&[u8]]) -> Result<(), Memory>
    ensures { OnOk result (page.new.items ≡ page.old.items ++ flat_map (λ piece. piece.now) pieces.now) }
{
    for piece in pieces {
        page.extend_from_slice(piece)?;
    }
    Ok(())
}
