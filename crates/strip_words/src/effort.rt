// The options of a search that `solve` and `trial` have in common.
ghost use Rattle.std.specs.Prelude.{ℕ, Option, IfOk, IfErr};
ghost use Rattle.strip_model.specs.declared.kind.Kind.{Kind as StaticBound};
ghost use Rattle.strip_words.specs.Words.{AreDistinct, options_in};
ghost use Rattle.strip_words.specs.Options.{IsChosen, IsGiven, IsPicked};
ghost use Rattle.strip_words.specs.Solve.{table_option, tries_option, steps_option, bounds_option, bound_word};
ghost use Rattle.strip_words.specs.Shown.{items_data};

use crate::WordsFault;
use crate::item::Item;
use crate::solve::{BOUNDS, STEPS, TABLE, TRIES, kind_of};
use strip_model::Kind;

/// The values of the options that `solve` and `trial` have in common.
#[derive(Clone, Copy)]
pub(crate) struct Effort {
    pub(crate) table: u64,
    pub(crate) tries: Option<u64>,
    pub(crate) steps: Option<u64>,
    pub(crate) kind: Kind,
}

/// Reads the numbers and the kind of static bounds from the items.
pub(crate) fn effort_of(items: &[Item]) -> Result<Effort, WordsFault>
    requires { AreDistinct (options_in (items_data items.now)) }
    ensures table { IfOk result (λ effort. IsChosen table_option (items_data items.now) effort.table) }
    ensures tries { IfOk result (λ effort. IsGiven tries_option (items_data items.now) effort.tries) }
    ensures steps { IfOk result (λ effort. IsGiven steps_option (items_data items.now) effort.steps) }
    ensures kind { IfOk result (λ effort. IsPicked bounds_option (items_data items.now) (bound_word effort.kind)) }
    ensures bad { IfErr result (λ e. (table : ℕ) (tries steps : Option ℕ) (kind : StaticBound)
        → IsChosen table_option (items_data items.now) table
        → IsGiven tries_option (items_data items.now) tries
        → IsGiven steps_option (items_data items.now) steps
        → ¬ IsPicked bounds_option (items_data items.now) (bound_word kind)) }
{
    let table = TABLE.chosen(items)?;
    let tries = TRIES.given(items)?;
    let steps = STEPS.given(items)?;
    let kind = kind_of(BOUNDS.picked(items)?);
    Ok(Effort {
        table,
        tries,
        steps,
        kind,
    })
}
