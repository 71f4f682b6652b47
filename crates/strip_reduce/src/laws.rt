//! Laws of the reduction: functions that do nothing when they run, with theorems as contracts.
ghost use Rattle.std.specs.Prelude.{◌≡◌, ℕ, ◌+◌, ◌≤◌, None, Some, length};
ghost use Rattle.strip_model.specs.Film.{FilmData};
ghost use Rattle.strip_film.specs.Film.{IsFilmUpTo};
ghost use Rattle.strip_model.specs.Data.{InstanceData, IsInstance};
ghost use Rattle.strip_model.specs.FilmOf.{film_of};
ghost use Rattle.strip_reduce.specs.State.{IsState, State, start};
ghost use Rattle.strip_reduce.specs.Reduction.{next, reduced};
ghost use Rattle.strip_reduce.specs.Law.{KeepsOptimum, StandsFor};

/// Each step keeps the limits of films, and removes one scene or one actor. The optimum over the orders that keep the
/// pairs falls by the cost that the step sets apart.
pub fn steps_keep_the_optimum()
    ensures limits { (before after : State) → IsState before → next before ≡ Some after → IsState after }
    ensures fewer { (before after : State) → next before ≡ Some after
        → length after.film.casts + length after.film.rates + 1 ≡ length before.film.casts + length before.film.rates }
    ensures optimum { (before after : State) → IsState before → next before ≡ Some after → KeepsOptimum before after }
{}

/// At the end of the reduction no step can be taken. Each order of its classes expands to an order of the film that
/// keeps the pairs if and only if the order of classes does. The expanded order pays more by the cost set apart, and so
/// do the optima differ.
pub fn the_classes_stand_for_the_film()
    ensures ended { (film : FilmData) → next (reduced film) ≡ None }
    ensures limits { (film : FilmData) → IsFilmUpTo 200 film → IsState (reduced film) }
    ensures stands { (film : FilmData) → IsFilmUpTo 200 film → StandsFor film (reduced film) }
{}

/// An instance's film keeps the limits, and so does the state with which its reduction begins.
pub fn reductions_begin_within_the_limits()
    ensures film { (inst : InstanceData) → IsInstance inst → IsFilmUpTo 200 (film_of inst) }
    ensures start { (film : FilmData) → IsFilmUpTo 200 film → IsState (start film) }
{}
