// The end of a search.
ghost use Rattle.std.specs.Prelude.{◌≡◌, ◌≤◌, true, false, IfErr, IfOk};
ghost use Rattle.strip_io.specs.Counts.{Rose};
ghost use Rattle.strip_film.specs.Film.{all_scenes};
ghost use Rattle.strip_film.specs.Shown.{path_data};
ghost use Rattle.strip_lines.specs.Lines.{known, rules_of};
ghost use Rattle.strip_hand.specs.Hand.{HandData};
ghost use Rattle.strip_front.specs.Calls.{Learns};
ghost use Rattle.strip_front.specs.Shown.{front_data};
ghost use Rattle.strip_worker.specs.Closed.{HasAll, IsClosed, IsSettled};
ghost use Rattle.strip_lines.specs.Ended.{EndsFrom, ended_data};
ghost use Rattle.strip_worker.specs.Team.{HasWorkedOn};

use crate::walked::Walked;
use std::alloc::Global;
use strip_bound::Bounds;
use strip_film::{Line, Path};
use strip_front::{Front, close_up};
use strip_hand::Hand;
use strip_io::Memory;
use strip_lines::Ended;
use strip_lines::laws::the_rules_are_true;

/// Raises the lines of the front (search frontier), after each part was claimed and worked on. It returns the bound to
/// which it raised the line of all scenes, in units of money. It fails with `Memory` only if the hand was refused
/// memory.
pub fn close<H: Hand, B: Bounds>(
    bounds: &B,
    hand: &mut H,
    front: &mut Front,
    walked: &Walked,
) -> Result<u64, Memory>
    requires sound { H.is_sound hand.old }
    requires worked { HasWorkedOn B.kind B.film (H.shows hand.old) (front_data front.old)
        walked.now.found.items walked.now.spent }
    requires all { HasAll (H.shows hand.old) }
    ensures sound { H.is_sound hand.new }
    ensures home { H.home hand.new ≡ H.home hand.old }
    ensures learns { Learns (H.shows hand.old) (H.shows hand.new) }
    ensures closed { IfOk result (λ number. IsClosed B.kind B.film (H.shows hand.new)
        walked.now.spent number) }
    ensures memory { IfErr result (λ _. Rose (H.shows hand.old).refusals (H.shows hand.new).refusals) }
{
    let number = close_up(bounds, hand, front, &walked.found)?;
    hand.keeps_limits();
    Ok(number)
}

/// Makes the result of a search from its best path, its lines, the bound that `close` returned, and whether it was cut
/// short. It moves the lines, copies the order, and takes a turn for each line if the search was cut short. If a hand
/// has closed and settled the search, `EndsFrom` holds of the result.
pub fn tell<B: Bounds>(
    alloc: Global,
    bounds: &B,
    best: &Path,
    lines: Vec<Line>,
    number: u64,
    spent: bool,
) -> Result<Ended, Memory>
    ensures ended { IfOk result (λ ended. (hand : HandData) → IsClosed B.kind B.film hand spent number
        → IsSettled hand (path_data best.now) lines.items
        → EndsFrom B.kind B.film hand.search.start hand.search.nodes (ended_data ended)) }
    ensures cost { IfOk result (λ ended. (hand : HandData) → IsSettled hand (path_data best.now) lines.items
        → ended.cost ≤ hand.told) }
{
    the_rules_are_true();
    let order = best.scenes().to_vec(alloc)?;
    let bound = whole_bound(bounds, &lines, number, spent);
    Ok(Ended {
        order,
        cost: best.paid(),
        bound,
        held: lines.len() as u64,
        lines,
        spent,
    })
}

/// Returns the bound known of all scenes: the number that `close` returned. If the search was cut short, it looks
/// through the lines instead, with a turn for each.
fn whole_bound<B: Bounds>(bounds: &B, lines: &[Line], number: u64, spent: bool) -> u64
    ensures whole { spent ≡ false → result ≡ number }
    ensures spent { spent ≡ true → result ≡ known (rules_of B.kind B.film) lines.now
        (all_scenes B.film) }
{
    if spent {
        known_of_all(bounds, lines)
    } else {
        number
    }
}

/// Returns the greatest of the static bound of all scenes and the bounds of their lines.
fn known_of_all<B: Bounds>(bounds: &B, lines: &[Line]) -> u64
    ensures { result ≡ known (rules_of B.kind B.film) lines.now (all_scenes B.film) }
{
    let film = bounds.film();
    film.keeps_limits();
    let all = film.all();
    let mut greatest = bounds.whole(all);
    for line in lines {
        if line.set == all.0 {
            greatest = greatest.max(line.bound);
        }
    }
    greatest
}
