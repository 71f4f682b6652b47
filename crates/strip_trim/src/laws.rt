//! Laws of the definitions: functions that do nothing when they run, each with a theorem as its contract.
ghost use Rattle.std.specs.Prelude.{◌≡◌, ℕ, ◌≤◌, Bool, List, length, count_by, max};
ghost use Rattle.strip_film.specs.declared.shared.Line.{Line};
ghost use Rattle.strip_film.specs.Film.{all_scenes};
ghost use Rattle.strip_film.specs.Rules.{Rules};
ghost use Rattle.strip_lines.specs.Lines.{AreJustified, known};
ghost use Rattle.strip_trim.specs.Trimmed.{AreTrimmed, Reached};
ghost use Rattle.strip_trim.specs.declared.best.BestLine.{BestLine};
ghost use Rattle.strip_trim.specs.Best.{IsBestLine, best_bound};

/// A trimmed list of a justified list is justified. It gives the set of all scenes, and each reached set, the bound
/// that the whole list gives.
pub fn a_trimmed_list_is_as_good()
    ensures justified { (rules : Rules) (lines trimmed : List Line) → AreTrimmed rules lines trimmed
        → AreJustified rules lines
        → AreJustified rules trimmed }
    ensures known { (rules : Rules) (lines trimmed : List Line) → AreTrimmed rules lines trimmed
        → known rules trimmed (all_scenes rules.film) ≡ known rules lines (all_scenes rules.film) }
    ensures reached { (rules : Rules) (lines trimmed : List Line) (set : ℕ) → AreTrimmed rules lines trimmed
        → Reached rules lines set
        → known rules trimmed set ≡ known rules lines set }
{}

/// A trimmed list is no longer than the list. It also has no more lines that pass a test, such as those with one set.
pub fn a_trimmed_list_is_no_longer()
    ensures length { (rules : Rules) (lines trimmed : List Line) → AreTrimmed rules lines trimmed
        → length trimmed ≤ length lines }
    ensures each { (rules : Rules) (lines trimmed : List Line) (test : Line → Bool) → AreTrimmed rules lines trimmed
        → count_by test trimmed ≤ count_by test lines }
{}

/// The bound known of a set is the greater of its static bound and the greatest bound of the lines with this set.
pub fn what_is_known_is_by_the_best()
    ensures { (rules : Rules) (lines : List Line) (set : ℕ)
        → known rules lines set ≡ max (rules.bound set) (best_bound lines set) }
{}

/// The best line of a set has the greatest bound of the lines with this set.
pub fn the_best_line_has_the_greatest_bound()
    ensures { (lines : List Line) (best : BestLine) → IsBestLine lines best → best.bound ≡ best_bound lines best.set }
{}
