//! Laws of the world: functions that do nothing when they run but call other laws, with theorems as contracts.
ghost use Rattle.std.specs.Prelude.{◌≡◌, ℕ, ◌+◌, ◌<◌, ◌≤◌, ◌==◌, List, length, count_by, Contains, All};
ghost use Rattle.strip_model.specs.declared.kind.Kind.{Kind};
ghost use Rattle.strip_model.specs.Film.{FilmData};
ghost use Rattle.strip_model.specs.Pay.{IsOptimum};
ghost use Rattle.strip_film.specs.declared.shared.Known.{Known};
ghost use Rattle.strip_film.specs.Film.{IsFilm};
ghost use Rattle.strip_film.specs.Finish.{IsAtMostFinish};
ghost use Rattle.strip_film.specs.Path.{IsComplete, PathData};
ghost use Rattle.strip_lines.specs.Lines.{GrowTo};
ghost use Rattle.strip_lines.specs.Paths.{candidate_count, leaving_count};
ghost use Rattle.strip_table.specs.Stripe.{bucket_at};
ghost use Rattle.strip_world.specs.declared.event.Event.{Event};
ghost use Rattle.strip_hand.specs.declared.limits.Limits.{Limits};
ghost use Rattle.strip_world.specs.declared.event.Reply.{Reply};
ghost use Rattle.strip_world.specs.Allowed.{IsAllowed, WorkerMayEnlist};
ghost use Rattle.strip_world.specs.Opened.{opened, search_of};
ghost use Rattle.strip_hand.specs.Limits.{AreLimits};
ghost use Rattle.strip_world.specs.Sound.{IsSound};
ghost use Rattle.strip_world.specs.Steps.{Steps};
ghost use Rattle.strip_hand.specs.Search.{AreStarts, search_rules};
ghost use Rattle.strip_world.specs.World.{WorldData, stripe_at};

use strip_lines::laws::the_rules_are_true;

/// A search begins with a sound world, and every allowed event keeps it sound.
pub fn steps_keep_worlds_sound()
    ensures opened { (film : FilmData) (kind : Kind) (start : PathData) (tasks : List PathData) (limits : Limits)
        → IsFilm film
        → IsComplete film start → AreStarts (search_of film kind start tasks limits) → AreLimits limits
        → IsSound (opened film kind start tasks limits) }
    ensures steps { (world after : WorldData) (event : Event) (reply : Reply) → IsSound world → IsAllowed world event
        → Steps world event after reply → IsSound after }
{}

/// In a sound world every line and every table entry is a valid lower bound of the cost of finishing its set. The
/// optimum is at most the least cost.
pub fn a_sound_world_is_true()
    ensures lines { (world : WorldData) → IsSound world
        → All (λ line. IsAtMostFinish world.search.film line.set line.bound) world.lines }
    ensures entries { (world : WorldData) (stripe bucket : ℕ) (entry : Known) → IsSound world → stripe < 16
        → bucket < length (stripe_at world stripe) → Contains (bucket_at (stripe_at world stripe) bucket) entry
        → IsAtMostFinish world.search.film entry.set entry.bound }
    ensures least { (world : WorldData) (pay : ℕ) → IsSound world → IsOptimum world.search.film pay
        → pay ≤ world.least }
{
    the_rules_are_true();
}

/// In a sound world the lines are at most as many as the candidates below the start order's cost, in total and for each
/// set. If a path may be enlisted, they are fewer.
pub fn sound_worlds_have_few_lines()
    ensures most { (world : WorldData) → IsSound world
        → length world.lines ≤ candidate_count (search_rules world.search) world.search.start }
    ensures sets { (world : WorldData) (set : ℕ) → IsSound world
        → count_by (λ line. line.set == set) world.lines
        ≤ leaving_count (search_rules world.search) world.search.start set }
    ensures room { (world : WorldData) (who part : ℕ) (path : PathData) → IsSound world → who < length world.workers
        → WorkerMayEnlist world who part path → length world.lines + 1
        ≤ candidate_count (search_rules world.search) world.search.start }
{}

/// The least cost never rises. A line's set never changes, and its bound never falls. The data of the search stay as
/// they are.
pub fn what_was_seen_stays_true()
    ensures least { (world after : WorldData) (event : Event) (reply : Reply) → Steps world event after reply
        → after.least ≤ world.least }
    ensures lines { (world after : WorldData) (event : Event) (reply : Reply) → IsAllowed world event
        → Steps world event after reply
        → GrowTo world.lines after.lines }
    ensures search { (world after : WorldData) (event : Event) (reply : Reply) → Steps world event after reply
        → after.search ≡ world.search }
{}
