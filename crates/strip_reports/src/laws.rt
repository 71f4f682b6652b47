//! Laws of the reports: functions that do nothing when they run, each with a theorem as its contract.
ghost use Rattle.std.specs.Prelude.{◌≡◌, ◌↔◌, ℕ, ◌+◌, ◌<◌, ◌≤◌, true, List, [], ◌∷◌, ◌++◌, All, drop, length, slice_index, take};
ghost use Rattle.std.specs.Fmt.{decimal};
ghost use Rattle.strip_model.specs.declared.pair.Pair.{Pair};
ghost use Rattle.strip_model.specs.Film.{FilmData};
ghost use Rattle.strip_model.specs.Order.{IsOrder, KeepsPair};
ghost use Rattle.strip_model.specs.Pairs.{IsKnownPair};
ghost use Rattle.strip_model.specs.Pay.{pay_of, works};
ghost use Rattle.strip_model.specs.Data.{InstanceData, IsInstance};
ghost use Rattle.strip_model.specs.FilmOf.{film_of};
ghost use Rattle.strip_text.specs.Rows.{Row};
ghost use Rattle.strip_reports.specs.Days.{crews_of, days_of, is_held, scene_at, waits_on, works_on};
ghost use Rattle.strip_reports.specs.Sheet.{total_pay};
ghost use Rattle.strip_reports.specs.Sums.{total_of};
ghost use Rattle.strip_reports.specs.Text.{dood_rows};
ghost use Rattle.strip_reports.specs.Actors.{earned_by_all};
ghost use Rattle.strip_reports.specs.Board.{breaks};
ghost use Rattle.strip_reports.specs.Html.{escaped};
ghost use Rattle.strip_reports.specs.Shown.{BeginsEntity, IsNoMarkup, shown};

/// The total pay in the Day Out of Days report is the pay of the order. It is the last field of the report's last row.
pub fn the_total_of_days_is_the_pay()
    ensures sums { (inst : InstanceData) (order : List ℕ) → IsInstance inst → IsOrder (length inst.scenes) order
        → (total_of (film_of inst) (crews_of (film_of inst) order)).pay ≡ pay_of (film_of inst) order }
    ensures said { (inst : InstanceData) (order : List ℕ) → IsInstance inst → IsOrder (length inst.scenes) order
        → (rows : List Row) × (fields : Row)
        × (dood_rows inst order ≡ rows ++ (fields ++ decimal (pay_of (film_of inst) order) ∷ []) ∷ []) }
{}

/// The total pay in the cost sheet is the pay of the order. The sum over scenes of all actors' pay equals the sum over
/// actors of their pay from first to last scene.
pub fn the_total_of_the_sheet_is_the_pay()
    ensures { (film : FilmData) (order : List ℕ) → total_pay film order ≡ pay_of film order }
{}

/// A name in a page can't begin or end a tag or an attribute's value: its text has none of the bytes `<`, `>`, `"` and
/// `'`, and each `&` begins an entity. The page shows the name itself, so different names look different.
pub fn names_are_text_alone()
    ensures markup { (name : List ℕ) → All IsNoMarkup (escaped name) }
    ensures entities { (name : List ℕ) (place : ℕ) → slice_index (escaped name) place ≡ 38
        → BeginsEntity (drop place (escaped name)) }
    ensures shown { (name : List ℕ) → shown (escaped name) ≡ name }
{}

/// The totals of both tables equal the pay of the order.
pub fn both_totals_are_the_pay()
    ensures scenes { (inst : InstanceData) (order : List ℕ) → total_pay (film_of inst) order ≡ pay_of (film_of inst) order }
    ensures actors { (inst : InstanceData) (order : List ℕ) → IsInstance inst → IsOrder (length inst.scenes) order
        → (earned_by_all (film_of inst) (crews_of (film_of inst) order)).work_pay
        + (earned_by_all (film_of inst) (crews_of (film_of inst) order)).hold_pay ≡ pay_of (film_of inst) order }
{}

/// The marks of a scene agree with the Day Out of Days report on each of its days.
pub fn marks_are_those_of_the_days()
    ensures works { (inst : InstanceData) (order : List ℕ) (place day actor : ℕ) → IsInstance inst
        → IsOrder (length inst.scenes) order → place < length order
        → days_of (film_of inst) (take place order) ≤ day → day < days_of (film_of inst) (take (place + 1) order)
        → works_on (crews_of (film_of inst) order) actor day ≡ works (film_of inst) actor (scene_at order place) }
    ensures held { (inst : InstanceData) (order : List ℕ) (place day actor : ℕ) → IsInstance inst
        → IsOrder (length inst.scenes) order → place < length order
        → days_of (film_of inst) (take place order) ≤ day → day < days_of (film_of inst) (take (place + 1) order)
        → waits_on (crews_of (film_of inst) order) actor day ≡ is_held (film_of inst) order place actor }
{}

/// A page warns of exactly the pairs that the order breaks.
pub fn warnings_are_of_broken_pairs()
    ensures { (n : ℕ) (order : List ℕ) (pair : Pair) → IsOrder n order → IsKnownPair n pair
        → (breaks order pair ≡ true) ↔ (¬ KeepsPair order pair) }
{}
