//! Laws of the definitions: functions that only cite other laws, each with a theorem as its contract.
ghost use Rattle.std.specs.Prelude.{◌≡◌, ◌↔◌, ℕ, ◌≤◌, None, List, IsTrue};
ghost use Rattle.strip_model.specs.declared.kind.Kind.{Kind};
ghost use Rattle.strip_model.specs.Film.{FilmData};
ghost use Rattle.strip_model.specs.Order.{IsOrder, StandsBefore};
ghost use Rattle.strip_film.specs.declared.shared.Line.{Line};
ghost use Rattle.strip_film.specs.Film.{IsFilm, IsFilmUpTo, LiesIn, all_scenes};
ghost use Rattle.strip_rule.specs.Rule.{is_part};
ghost use Rattle.strip_lines.specs.Lines.{IsJustified, rules_of};
ghost use Rattle.strip_reduce.specs.Reduction.{class_count};
ghost use Rattle.strip_text.specs.Checks.{first_fault};
ghost use Rattle.strip_proof.specs.declared.plan.Status.{Status};
ghost use Rattle.strip_proof.specs.declared.plan.Status.TheVariants.{Optimal};
ghost use Rattle.strip_proof.specs.Plan.{PlanData};
ghost use Rattle.strip_check.specs.Accepted.{IsAccepted, IsTruePlan};
ghost use Rattle.strip_check.specs.Reasons.{is_order, is_right, justified, plan_checks, stands_before};

use strip_film::laws::{a_least_tail_exists, finishing_everything_is_the_optimum};
use strip_lines::laws::{a_justified_list_is_true, the_rules_are_true};
use strip_reduce::laws::the_classes_stand_for_the_film;

/// No order that keeps the pairs pays less than the bound of an accepted plan, whoever made it. The other statements of
/// an accepted plan are true too.
pub fn no_order_undercuts_an_accepted_plan()
    ensures { (film : FilmData) (plan : PlanData) → IsFilmUpTo 200 film → class_count film ≤ 64
        → IsAccepted film plan → IsTruePlan film plan }
{
    the_rules_are_true();
    a_justified_list_is_true();
    a_least_tail_exists();
    finishing_everything_is_the_optimum();
    the_classes_stand_for_the_film();
}

/// A plan is accepted exactly if no check fails.
pub fn accepted_plans_pass_each_check()
    ensures { (film : FilmData) (plan : PlanData) → IsFilmUpTo 200 film → class_count film ≤ 64
        → (first_fault (plan_checks film plan) ≡ None) ↔ IsAccepted film plan }
{
    the_rules_are_true();
    the_classes_stand_for_the_film();
}

/// The tests of the checks decide their propositions. A list is an order or keeps a pair; a set lies in a film; the
/// lines justify a bound for a set; a status is right.
pub fn the_tests_decide()
    ensures order { (n : ℕ) (order : List ℕ) → IsTrue (is_order n order) ↔ IsOrder n order }
    ensures pair { (first second : ℕ) (order : List ℕ)
        → IsTrue (stands_before first second order) ↔ StandsBefore first second order }
    ensures set { (film : FilmData) (set : ℕ) → IsTrue (is_part set (all_scenes film)) ↔ LiesIn film set }
    ensures line { (kind : Kind) (film : FilmData) (lines : List Line) (line : Line) → IsFilm film
        → LiesIn film line.set
        → (line.bound ≤ justified (rules_of kind film) lines line.set) ↔ IsJustified (rules_of kind film) lines line }
    ensures status { (status : Status) (bound cost : ℕ)
        → IsTrue (is_right status bound cost) ↔ ((status ≡ Optimal) ↔ (bound ≡ cost)) }
{
    the_rules_are_true();
}
