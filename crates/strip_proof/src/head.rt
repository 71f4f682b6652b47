// The head rows of a plan.
ghost use Rattle.std.specs.Prelude.{◌≡◌, ◌<◌, ◌++◌, ◌∷◌, [], length, map, All, codes, IfOk, OnOk};
ghost use Rattle.std.specs.Fmt.{decimal};
ghost use Rattle.strip_model.specs.Data.{scene_name};
ghost use Rattle.strip_text.specs.Rows.{csv_row, csv_text};
ghost use Rattle.strip_proof.specs.Plan.{plan_data};
ghost use Rattle.strip_proof.specs.Rows.{kind_word, status_word, head_rows};

use crate::plan::{Plan, Status};
use std::alloc::Global;
use strip_io::Memory;
use strip_model::{Instance, Kind};
use strip_text::Text;

/// Returns the eight head rows of a plan's text, with `printed` line rows to follow: 0 for a plan without a proof.
pub fn head_text(
    alloc: Global,
    inst: &Instance,
    plan: &Plan,
    printed: u64,
) -> Result<Vec<u8>, Memory>
    requires { All (λ scene. scene < length inst.now.scenes) (plan_data plan.now).order }
    ensures { IfOk result (λ text. text.items ≡ csv_text (head_rows inst.now (plan_data plan.now) printed)) }
{
    let mut text = Text::new(alloc);
    push_head(alloc, &mut text, inst, plan, printed)?;
    text.into_bytes()
}

/// Appends the eight rows to an empty text.
fn push_head(
    alloc: Global,
    text: &mut Text,
    inst: &Instance,
    plan: &Plan,
    printed: u64,
) -> Result<(), Memory>
    requires order { All (λ scene. scene < length inst.now.scenes) (plan_data plan.now).order }
    requires none { text.old ≡ [] }
    ensures { OnOk result (text.new ≡ csv_text (head_rows inst.now (plan_data plan.now) printed)) }
{
    push_word(alloc, text, b"plan", b"2")?;
    push_word(alloc, text, b"bounds", kind_word(plan.kind))?;
    push_word(alloc, text, b"status", status_word(plan.status))?;
    push_number(alloc, text, b"cost", plan.cost)?;
    push_number(alloc, text, b"bound", plan.bound)?;
    push_number(alloc, text, b"lines", plan.held)?;
    push_order(alloc, text, inst, &plan.order)?;
    push_number(alloc, text, b"proof", printed)
}

fn kind_word(kind: Kind) -> &'static [u8]
    ensures { result.now ≡ kind_word kind }
{
    match kind {
        Kind::Plain => b"plain",
        Kind::Pairs => b"pairs",
        Kind::Groups => b"groups",
        Kind::Arrivals => b"arrivals",
    }
}

/// Returns the word of a plan's status.
pub fn status_word(status: Status) -> &'static [u8]
    ensures { result.now ≡ status_word status }
{
    match status {
        Status::Optimal => b"optimal",
        Status::Bounded => b"bounded",
    }
}

fn push_word<'w>(
    alloc: Global,
    text: &mut Text,
    name: &'w [u8],
    word: &'w [u8],
) -> Result<(), Memory>
    ensures { OnOk result (text.new ≡ text.old ++ csv_row (name.now ∷ word.now ∷ [])) }
{
    let mut fields = Vec::new(alloc);
    fields.push(name)?;
    fields.push(word)?;
    text.push(&fields)
}

fn push_number(alloc: Global, text: &mut Text, name: &[u8], number: u64) -> Result<(), Memory>
    ensures { OnOk result (text.new ≡ text.old ++ csv_row (name.now ∷ decimal number ∷ [])) }
{
    push_word(alloc, text, name, number.to_string(alloc)?.as_bytes())
}

/// Appends the row of the scenes' names in shooting order.
fn push_order(alloc: Global, text: &mut Text, inst: &Instance, order: &[u16]) -> Result<(), Memory>
    requires { All (λ scene. scene < length inst.now.scenes) order.now }
    ensures { OnOk result (text.new ≡ text.old ++ csv_row (codes "order" ∷ map (scene_name inst.now) order.now)) }
{
    let mut fields: Vec<&[u8]> = Vec::new(alloc);
    fields.push(b"order")?;
    for &scene in order {
        fields.push(name_of(inst, scene).as_bytes())?;
    }
    text.push(&fields)
}

fn name_of(inst: &Instance, scene: u16) -> &str
    requires { scene < length inst.now.scenes }
    ensures { result.now ≡ scene_name inst.now scene }
{
    inst.scenes()[scene as usize].name.as_str()
}
