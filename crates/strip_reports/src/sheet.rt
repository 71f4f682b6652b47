//! Cost sheets: the days of each scene of an order, its actors, and their pay.
ghost use Rattle.std.specs.Prelude.{◌≡◌, ◌++◌, ◌<◌, [], length, IfOk, OnOk};
ghost use Rattle.strip_model.specs.Data.{scene_name};
ghost use Rattle.strip_model.specs.Order.{IsOrder};
ghost use Rattle.strip_text.specs.Rows.{csv_row};
ghost use Rattle.strip_reports.specs.Sheet.{header_row, row_of, sheet_text, total_row};

use crate::figures::{Figures, days_of, figures_at};
use std::alloc::Global;
use strip_io::Memory;
use strip_model::Instance;
use strip_text::Text;

/// Returns the cost sheet of the instance in this order. It has a header, and a row for each scene: its days, how many
/// actors work and are held, and their pay for it in units of money. A row of totals follows. It fails only if memory
/// runs out, and takes time in proportion to scenes times the number of scenes and actors.
pub fn sheet(alloc: Global, inst: &Instance, order: &[u16]) -> Result<Vec<u8>, Memory>
    requires order { IsOrder (length inst.now.scenes) order.now }
    ensures text { IfOk result (λ text. text.items ≡ sheet_text inst.now order.now) }
{
    inst.keeps_limits();
    let mut text = Text::new(alloc);
    push_header(&mut text)?;
    let mut pay = 0;
    for place in 0..order.len() {
        let figures = figures_at(inst, order, place);
        let name = name_of(inst, order[place]);
        push_scene(alloc, &mut text, place + 1, name, &figures)?;
        pay += figures.pay;
    }
    push_total(alloc, &mut text, days_of(inst, order), pay)?;
    text.into_bytes()
}

fn name_of(inst: &Instance, scene: u16) -> &str
    requires { scene < length inst.now.scenes }
    ensures { result.now ≡ scene_name inst.now scene }
{
    inst.scenes()[scene as usize].name.as_str()
}

fn push_header(text: &mut Text) -> Result<(), Memory>
    ensures { OnOk result (text.new ≡ text.old ++ csv_row header_row) }
{
    text.push(&[
        b"position",
        b"scene",
        b"first",
        b"last",
        b"days",
        b"working",
        b"holding",
        b"pay",
    ])
}

/// Appends the row of a scene.
fn push_scene(
    alloc: Global,
    text: &mut Text,
    position: usize,
    name: &str,
    figures: &Figures,
) -> Result<(), Memory>
    ensures { OnOk result (text.new ≡ text.old ++ csv_row (row_of position name.now figures.now)) }
{
    text.push(&[
        position.to_string(alloc)?.as_bytes(),
        name.as_bytes(),
        figures.first.to_string(alloc)?.as_bytes(),
        figures.last.to_string(alloc)?.as_bytes(),
        figures.days.to_string(alloc)?.as_bytes(),
        figures.working.to_string(alloc)?.as_bytes(),
        figures.holding.to_string(alloc)?.as_bytes(),
        figures.pay.to_string(alloc)?.as_bytes(),
    ])
}

/// Appends the row of totals.
fn push_total(alloc: Global, text: &mut Text, days: u64, pay: u64) -> Result<(), Memory>
    ensures { OnOk result (text.new ≡ text.old ++ csv_row (total_row days pay)) }
{
    let days = days.to_string(alloc)?;
    let pay = pay.to_string(alloc)?;
    text.push(&[
        b"total",
        b"",
        b"",
        b"",
        days.as_bytes(),
        b"",
        b"",
        pay.as_bytes(),
    ])
}
