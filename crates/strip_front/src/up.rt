// Raising the front's lines after the walks.
ghost use Rattle.std.specs.Prelude.{◌≡◌, ◌+◌, ◌<◌, ◌≤◌, ◌^◌, ℕ, true, length, IfOk, IfErr};
ghost use Rattle.strip_io.specs.Counts.{Rose};
ghost use Rattle.strip_mask.specs.Set.{has};
ghost use Rattle.strip_model.specs.declared.kind.Kind.{Kind};
ghost use Rattle.strip_model.specs.Film.{FilmData};
ghost use Rattle.strip_film.specs.Film.{IsFilm, LiesIn};
ghost use Rattle.strip_rule.specs.Rule.{open_firsts};
ghost use Rattle.strip_lines.specs.Lines.{rules_of};
ghost use Rattle.strip_hand.specs.Hand.{IsSearchOf};
ghost use Rattle.strip_front.specs.Calls.{IsClosedUp, IsWalked, Learns};
ghost use Rattle.strip_front.specs.Front.{IsFrontOf, path_at};
ghost use Rattle.strip_front.specs.Raised.{AreRaised, IsNumberOf, IsRaisedTo, ReachesBy, ReachesFrom};
ghost use Rattle.strip_front.specs.Shown.{front_data};

use crate::front::Front;
use strip_bound::Bounds;
use strip_film::{Film, step};
use strip_hand::Hand;
use strip_io::Memory;
use strip_mask::Mask;
use strip_rule::open_firsts;

/// Raises the front's lines after the tasks are walked.
///
/// `found` has a number for each task, in units of money. For a marked task it is at most the bound known of the set
/// that the task leaves. Lines are raised layer by layer, from the longest paths to the empty one. Each is raised to
/// the least step plus bound over its successors, or its static bound if that is greater. The bound of a successor is
/// its task's number or its line's raised bound, or its static bound if it has no line.
///
/// Returns the raised bound of the empty path, or the static bound of all scenes if it has no line. It takes a call of
/// the hand for each line, and two lookups for each open first of each path.
pub fn close_up<H: Hand, B: Bounds>(
    bounds: &B,
    hand: &mut H,
    front: &mut Front,
    found: &[u64],
) -> Result<u64, Memory>
    requires sound { H.is_sound hand.old }
    requires search { IsSearchOf B.kind B.film (H.shows hand.old) }
    requires walked { IsWalked (H.shows hand.old) (front_data front.old) found.now }
    ensures sound { H.is_sound hand.new }
    ensures home { H.home hand.new ≡ H.home hand.old }
    ensures front { front_data front.new ≡ front_data front.old }
    ensures stays { Learns (H.shows hand.old) (H.shows hand.new) }
    ensures closed { IfOk result (λ number. IsClosedUp (H.shows hand.new) (front_data front.old) found.now number) }
    ensures memory { IfErr result (λ _. Rose (H.shows hand.old).refusals (H.shows hand.new).refusals) }
{
    hand.keeps_limits();
    if front.lines[0].is_none() {
        return Ok(bounds.whole(bounds.film().all()));
    }
    for scene_count in (0..front.depth).rev() {
        raise_layer(bounds, hand, front, found, scene_count)?;
    }
    Ok(front.numbers[0])
}

/// Raises the lines of the paths with `scene_count` scenes.
fn raise_layer<H: Hand, B: Bounds>(
    bounds: &B,
    hand: &mut H,
    front: &mut Front,
    found: &[u64],
    scene_count: usize,
) -> Result<(), Memory>
    requires sound { H.is_sound hand.old }
    requires search { IsSearchOf B.kind B.film (H.shows hand.old) }
    requires raised { IsRaisedTo (H.shows hand.old) (front_data front.old) found.now front.old.numbers.items
        (scene_count + 1) }
    ensures sound { H.is_sound hand.new }
    ensures home { H.home hand.new ≡ H.home hand.old }
    ensures front { front_data front.new ≡ front_data front.old }
    ensures learns { Learns (H.shows hand.old) (H.shows hand.new) }
    ensures raised { IfOk result (λ _. AreRaised (H.shows hand.new) (front_data front.old)
        found.now front.new.numbers.items scene_count) }
    ensures memory { IfErr result (λ _. Rose (H.shows hand.old).refusals (H.shows hand.new).refusals) }
{
    for place in 0..front.lines.len() {
        if front.paths.paths()[place].scenes().len() != scene_count {
            continue;
        }
        let number = raise_path(bounds, hand, front, found, place)?;
        front.numbers[place] = number;
    }
    Ok(())
}

/// Raises the line of a path and returns the raised bound, or returns the static bound if the path has no line.
fn raise_path<H: Hand, B: Bounds>(
    bounds: &B,
    hand: &mut H,
    front: &Front,
    found: &[u64],
    place: usize,
) -> Result<u64, Memory>
    requires sound { H.is_sound hand.old }
    requires search { IsSearchOf B.kind B.film (H.shows hand.old) }
    requires place { place < length (front_data front.now).paths }
    requires raised { IsRaisedTo (H.shows hand.old) (front_data front.now) found.now front.now.numbers.items
        (length (path_at (front_data front.now) place).scenes + 1) }
    ensures sound { H.is_sound hand.new }
    ensures home { H.home hand.new ≡ H.home hand.old }
    ensures learns { Learns (H.shows hand.old) (H.shows hand.new) }
    ensures reached { IfOk result (λ number. ReachesFrom (H.shows hand.new) (front_data front.now)
        found.now place number) }
    ensures memory { IfErr result (λ _. Rose (H.shows hand.old).refusals (H.shows hand.new).refusals) }
{
    let film = bounds.film();
    film.keeps_limits();
    hand.keeps_limits();
    let rest = front.paths.paths()[place].rest();
    match front.lines[place] {
        None => Ok(bounds.whole(rest)),
        Some(line) => {
            let number = bounds.whole(rest).max(least_over(film, front, found, rest));
            hand.raise(line, number)?;
            Ok(number)
        }
    }
}

/// Returns the least step plus bound over the open firsts of the set, in units of money. It takes two lookups for each.
fn least_over(film: &Film, front: &Front, found: &[u64], rest: Mask) -> u64
    requires front { (kind : Kind) × IsFrontOf (rules_of kind film.now) (front_data front.now) }
    requires count { length found.now ≡ length (front_data front.now).tasks }
    requires lies { LiesIn film.now rest.0 }
    requires there { (scene : ℕ) → has (open_firsts film.now rest.0) scene ≡ true
        → (reach : ℕ) × ReachesBy film.now (front_data front.now) found.now front.now.numbers.items rest.0 scene reach
        × (reach < 2 ^ 64) }
    ensures most { (scene reach : ℕ) → has (open_firsts film.now rest.0) scene ≡ true
        → ReachesBy film.now (front_data front.now) found.now front.now.numbers.items rest.0 scene reach
        → result ≤ reach }
    ensures least { (value : ℕ) → value < 2 ^ 64 → ((scene reach : ℕ) → has (open_firsts film.now rest.0) scene ≡ true
        → ReachesBy film.now (front_data front.now) found.now front.now.numbers.items rest.0 scene reach
        → value ≤ reach) → value ≤ result }
{
    film.keeps_limits();
    let mut least = u64::MAX;
    for scene in open_firsts(film, rest).iter() {
        let reach = step(film, rest, scene) + number_of(front, found, rest.without(scene));
        least = least.min(reach);
    }
    least
}

/// Returns the number of the task that leaves these scenes, or of the shorter path, or 0 if there is neither.
fn number_of(front: &Front, found: &[u64], rest: Mask) -> u64
    requires count { length found.now ≡ length (front_data front.now).tasks }
    ensures { (kind : Kind) (film : FilmData) (number : ℕ) → IsFilm film
        → IsFrontOf (rules_of kind film) (front_data front.now)
        → IsNumberOf (front_data front.now) found.now front.now.numbers.items rest.0 number → result ≡ number }
{
    if let Some(task) = front.tasks.place_of(rest) {
        return found[task];
    }
    match front.paths.place_of(rest) {
        Some(place) => front.numbers[place],
        None => 0,
    }
}
