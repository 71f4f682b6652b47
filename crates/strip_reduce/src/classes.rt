// Reduction of an instance to a film of its classes.
ghost use Rattle.std.specs.Prelude.{◌≡◌, ℕ, ◌<◌, ◌≤◌, Err, length, IfOk, OnOk};
ghost use Rattle.strip_model.specs.FilmOf.{film_of};
ghost use Rattle.strip_reduce.specs.declared.fault.ReduceFault.TheVariants.{TooManyClasses};
ghost use Rattle.strip_reduce.specs.Draft.{IsDraft, draft_state};
ghost use Rattle.strip_reduce.specs.Law.{StandsFor};
ghost use Rattle.strip_reduce.specs.Reduction.{after_steps, class_count, reduced};
ghost use Rattle.strip_reduce.specs.Shown.{reduced_data};

use crate::draft::Draft;
use crate::fault::ReduceFault;
use crate::laws::the_classes_stand_for_the_film;
use crate::reduced::{MAX_CLASSES, Reduced};
use crate::start::first_draft;
use std::alloc::{AllocError, Global};
use strip_film::Film;
use strip_model::Instance;

/// Reduces the instance to a film of classes. It fails with the number of classes if there are more than 64, or if
/// memory runs out. Memory is needed for the film and the classes' scenes.
///
/// There are t steps at most, one for each scene and each actor. A step goes once over the casts and the pairs. It then
/// looks for two scenes or two actors to join, from the last find on. Only after an actor is dropped does it start
/// again, since casts change then. For s scenes, a actors and p pairs, the time is O(a·s² + s·a² + t·p). Making the
/// film at the end takes time linear in p.
pub fn reduce(alloc: Global, inst: &Instance) -> Result<Reduced, ReduceFault>
    ensures classes { IfOk result (λ r. reduced_data r ≡ reduced (film_of inst.now)) }
    ensures stands { IfOk result (λ r. StandsFor (film_of inst.now) (reduced_data r)) }
    ensures few { OnOk result (class_count (film_of inst.now) ≤ 64) }
    ensures too_many { (count : ℕ) → result ≡ Err (TooManyClasses count)
        → (64 < count) × (count ≡ class_count (film_of inst.now)) }
{
    the_classes_stand_for_the_film();
    let mut draft = first_draft(alloc, inst)?;
    let most = draft.casts.len() + draft.rates.len();
    take_steps(&mut draft, most)?;
    finished(draft)
}

/// Takes `most` steps, or fewer if no more can be taken.
fn take_steps(draft: &mut Draft, most: usize) -> Result<(), AllocError>
    requires { IsDraft (draft_state draft.old) draft.old.compared }
    ensures steps { OnOk result (draft_state draft.new ≡ after_steps most (draft_state draft.old)) }
    ensures stays { OnOk result (IsDraft (draft_state draft.new) draft.new.compared) }
{
    for _turn in 0..most {
        if !draft.step()? {
            return Ok(());
        }
    }
    Ok(())
}

/// Returns the draft as a film of classes, if there are at most 64 of them.
fn finished(draft: Draft) -> Result<Reduced, ReduceFault>
    requires { IsDraft (draft_state draft) draft.compared }
    ensures classes { IfOk result (λ r. reduced_data r ≡ draft_state draft) }
    ensures few { OnOk result (length draft.casts.items ≤ 64) }
    ensures too_many { (count : ℕ) → result ≡ Err (TooManyClasses count)
        → (64 < count) × (count ≡ length draft.casts.items) }
{
    let count = draft.casts.len();
    if count > MAX_CLASSES {
        return Err(ReduceFault::TooManyClasses {
            count: count as u64,
        });
    }
    match Film::of(
        draft.casts,
        draft.days,
        draft.rates,
        draft.holds,
        draft.pairs,
    ) {
        Some(film) => Ok(Reduced {
            film,
            classes: draft.members,
            apart: draft.apart,
        }),
        None => unreachable!("steps keep the limits"),
    }
}
