// Marking the tasks that have to be walked.
ghost use Rattle.std.specs.Prelude.{◌≡◌, ◌≢◌, ◌<◌, ℕ, length, IsSome};
ghost use Rattle.std.specs.List.{AllPairs};
ghost use Rattle.strip_film.specs.Film.{LiesIn};
ghost use Rattle.strip_lines.specs.Lines.{rules_of};
ghost use Rattle.strip_model.specs.declared.kind.Kind.{Kind};
ghost use Rattle.strip_front.specs.Filled.{Follows, IsWanted};
ghost use Rattle.strip_front.specs.Front.{IsFrontOf, line_of, path_at, task_at};
ghost use Rattle.strip_front.specs.Marked.{MarksMore};
ghost use Rattle.strip_front.specs.Shown.{front_data};

use crate::front::Front;
use strip_film::Film;
use strip_mask::Mask;
use strip_rule::open_firsts;

/// Marks the tasks that follow from the front's lines: for each path with a line, the tasks that its open firsts lead
/// to. It takes a lookup for each.
pub(crate) fn mark_wanted(film: &Film, front: &mut Front)
    requires { (kind : Kind) × IsFrontOf (rules_of kind film.now) (front_data front.old) }
    ensures { MarksMore (front_data front.old) (front_data front.new) (IsWanted film.now (front_data front.old)) }
{
    film.keeps_limits();
    for place in 0..front.lines.len() {
        mark_behind(film, place, front);
    }
}

/// Marks the tasks that follow from the path at this place, if it has a line.
fn mark_behind(film: &Film, place: usize, front: &mut Front)
    requires front { (kind : Kind) × IsFrontOf (rules_of kind film.now) (front_data front.old) }
    requires place { place < length (front_data front.old).paths }
    ensures { MarksMore (front_data front.old) (front_data front.new)
        (λ task. IsSome (line_of (front_data front.old) place)
        × Follows film.now (path_at (front_data front.old) place).rest (task_at (front_data front.old) task).rest) }
{
    film.keeps_limits();
    if front.lines[place].is_some() {
        let rest = front.paths.paths()[place].rest();
        mark_after(film, rest, front);
    }
}

/// Marks the tasks to which the open firsts of this set lead.
fn mark_after(film: &Film, rest: Mask, front: &mut Front)
    requires lies { LiesIn film.now rest.0 }
    requires wanted { length (front_data front.old).wanted ≡ length (front_data front.old).tasks }
    requires apart { AllPairs (λ a b. a.rest ≢ b.rest) (front_data front.old).tasks }
    ensures { MarksMore (front_data front.old) (front_data front.new)
        (λ task. Follows film.now rest.0 (task_at (front_data front.old) task).rest) }
{
    film.keeps_limits();
    for scene in open_firsts(film, rest).iter() {
        ask_for(front, rest.without(scene));
    }
}

/// Marks the task that leaves these scenes, if there is one.
fn ask_for(front: &mut Front, rest: Mask)
    requires wanted { length (front_data front.old).wanted ≡ length (front_data front.old).tasks }
    requires apart { AllPairs (λ a b. a.rest ≢ b.rest) (front_data front.old).tasks }
    ensures { MarksMore (front_data front.old) (front_data front.new)
        (λ task. (task_at (front_data front.old) task).rest ≡ rest.0) }
{
    if let Some(task) = front.tasks.place_of(rest) {
        front.wanted[task] = true;
    }
}
