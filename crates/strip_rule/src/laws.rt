//! Laws of the dominance rule: functions that do nothing when they run, with theorems as contracts.
ghost use Rattle.std.specs.Prelude.{◌≡◌, ◌↔◌, ℕ, ◌≤◌, true, false, List, ◌∷◌};
ghost use Rattle.strip_mask.specs.Set.{IsSet, has};
ghost use Rattle.strip_model.specs.Film.{FilmData};
ghost use Rattle.strip_film.specs.Film.{IsFilm, LiesIn};
ghost use Rattle.strip_film.specs.Shoot.{ready};
ghost use Rattle.strip_film.specs.Finish.{EachOnce, steps_cost};
ghost use Rattle.strip_film.specs.Rules.{BeginLeast, FirstsAreReady};
ghost use Rattle.strip_rule.specs.Rule.{open_firsts, rules_out};

/// Suppose that a scene rules out another. Then for each list that begins with the other, one that begins with the
/// scene costs no more.
pub fn the_exchange_costs_no_more()
    ensures { (film : FilmData) (set first second : ℕ) (later : List ℕ) → IsFilm film → LiesIn film set
        → rules_out film set first second ≡ true → EachOnce film set (second ∷ later)
        → (other : List ℕ) × EachOnce film set (first ∷ other)
        × (steps_cost film set (first ∷ other) ≤ steps_cost film set (second ∷ later)) }
{}

/// Ruling out is a strict partial order on the scenes of a set. So some ready scene of a nonempty set is open.
pub fn ruling_out_is_an_order()
    ensures never_both { (film : FilmData) (set first second : ℕ) → rules_out film set first second ≡ true
        → rules_out film set second first ≡ false }
    ensures transitive { (film : FilmData) (set first second third : ℕ) → rules_out film set first second ≡ true
        → rules_out film set second third ≡ true → rules_out film set first third ≡ true }
{}

/// The open firsts of a set are its ready scenes that no scene rules out.
pub fn open_firsts_are_by_scenes()
    ensures { (film : FilmData) (set scene : ℕ) → IsSet set → (has (open_firsts film set) scene ≡ true)
        ↔ ((has (ready film set) scene ≡ true) × ((first : ℕ) → rules_out film set first scene ≡ false)) }
{}

/// If the open firsts of a set may be shot first, one of them begins a least tail. All of them are ready.
pub fn an_open_first_begins_a_least_tail()
    ensures best { (film : FilmData) (bound : ℕ → ℕ) (promise : ℕ → ℕ → ℕ) → IsFilm film
        → BeginLeast (record { film = film; bound = bound; firsts = open_firsts film; promise = promise }) }
    ensures ready { (film : FilmData) (bound : ℕ → ℕ) (promise : ℕ → ℕ → ℕ) → IsFilm film
        → FirstsAreReady (record { film = film; bound = bound; firsts = open_firsts film; promise = promise }) }
{}
