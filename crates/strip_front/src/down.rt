// Enlisting the paths of the front, and marking the tasks to be walked.
ghost use Rattle.std.specs.Prelude.{◌≡◌, IfOk, IfErr};
ghost use Rattle.strip_io.specs.Counts.{Rose};
ghost use Rattle.strip_film.specs.Shown.{cursor_data, path_data};
ghost use Rattle.strip_hand.specs.Hand.{IsHand, IsSearchOf};
ghost use Rattle.strip_hand.specs.Search.{search_rules};
ghost use Rattle.strip_front.specs.Calls.{GoesDown, IsDown, KeepsTasks, MayGoDown};
ghost use Rattle.strip_front.specs.Shown.{front_data};
ghost use Rattle.strip_front.specs.Tried.{IsBegun, IsEnlisted, ListsLines, MayTry, StandsInFront, Tries};

use crate::front::Front;
use crate::marks::mark_wanted;
use strip_bound::Bounds;
use strip_film::{Cursor, Listed, Path};
use strip_hand::Hand;
use strip_io::Memory;

/// Enlists the front's paths in part 0, which the caller has claimed, and marks the tasks that follow from them.
///
/// The empty path is enlisted if the static bound of all scenes is below the least cost; if not, nothing is. Then each
/// longer path is enlisted if its pay plus the bound of the rest is below the least cost. Its predecessor need not be
/// enlisted. Paths are tried in the order of the search.
///
/// Returns whether the line budget was used up. A path that meets a used-up budget is not enlisted, but later paths are
/// still tried. Even then the empty path has a line, if the budget isn't 0 and the hand knows only lines of its own
/// front paths.
///
/// It takes a few calls of the hand and one of the stored bound for each path, and a lookup for each task that follows.
pub fn go_down<H: Hand, B: Bounds>(
    bounds: &B,
    hand: &mut H,
    cursor: &mut Cursor,
    front: &mut Front,
) -> Result<bool, Memory>
    requires sound { H.is_sound hand.old }
    requires search { IsSearchOf B.kind B.film (H.shows hand.old) }
    requires may { MayGoDown (H.shows hand.old) (cursor_data cursor.old) (front_data front.old) }
    ensures sound { H.is_sound hand.new }
    ensures home { H.home hand.new ≡ H.home hand.old }
    ensures stays { GoesDown (H.shows hand.old) (H.shows hand.new) (cursor_data cursor.new) }
    ensures front { KeepsTasks (search_rules (H.shows hand.old).search) (front_data front.old) (front_data front.new) }
    ensures down { IfOk result (λ spent. IsDown (H.shows hand.new) (cursor_data cursor.new)
        (front_data front.new) spent) }
    ensures memory { IfErr result (λ _. Rose (H.shows hand.old).refusals (H.shows hand.new).refusals) }
{
    let spent = enlist_paths(bounds, hand, cursor, front)?;
    hand.keeps_limits();
    mark_wanted(bounds.film(), front);
    Ok(spent)
}

/// The result of trying a path: it isn't below the least cost (`Passed`), it has this line, or the line budget is used
/// up.
#[derive(Debug, Drop)]
enum Tried {
    Passed,
    Line(u32),
    Spent,
}

impl Tried {
    ghost use Rattle.std.specs.Prelude.{◌≡◌};
    ghost use Rattle.strip_front.specs.Tried.{has_spent, line_from};

    /// Returns the line that was made, if any.
    fn line(&self) -> Option<u32>
        ensures { result ≡ line_from self.now }
    {
        match self {
            Tried::Line(line) => Some(*line),
            Tried::Passed | Tried::Spent => None,
        }
    }

    /// Returns whether the line budget was used up.
    fn is_spent(&self) -> bool
        ensures { result ≡ has_spent self.now }
    {
        match self {
            Tried::Spent => true,
            Tried::Passed | Tried::Line(_) => false,
        }
    }
}

/// Enlists the path, if its pay plus the static bound of the rest is below the least cost.
fn try_path<H: Hand, B: Bounds>(
    bounds: &B,
    hand: &mut H,
    cursor: &mut Cursor,
    path: &Path,
) -> Result<Tried, Memory>
    requires sound { H.is_sound hand.old }
    requires search { IsSearchOf B.kind B.film (H.shows hand.old) }
    requires stands { StandsInFront (H.shows hand.old) (cursor_data cursor.old) }
    requires may { MayTry (H.shows hand.old).search (cursor_data cursor.old) (path_data path.now) }
    ensures sound { H.is_sound hand.new }
    ensures home { H.home hand.new ≡ H.home hand.old }
    ensures limits { IsHand (H.shows hand.new) }
    ensures tried { Tries (H.shows hand.old) (cursor_data cursor.old) (path_data path.now) result (H.shows hand.new)
        (cursor_data cursor.new) }
{
    let bound = bounds.whole(path.rest());
    let least = hand.look();
    hand.keeps_limits();
    if least <= path.paid() + bound {
        return Ok(Tried::Passed);
    }
    let listed = hand.enlist(cursor, path, bound);
    hand.keeps_limits();
    match listed? {
        Listed::Line(line) => Ok(Tried::Line(line)),
        Listed::Spent { .. } => Ok(Tried::Spent),
    }
}

/// Enlists the empty path, and then the others, each if it is below the least cost.
fn enlist_paths<H: Hand, B: Bounds>(
    bounds: &B,
    hand: &mut H,
    cursor: &mut Cursor,
    front: &mut Front,
) -> Result<bool, Memory>
    requires sound { H.is_sound hand.old }
    requires search { IsSearchOf B.kind B.film (H.shows hand.old) }
    requires may { MayGoDown (H.shows hand.old) (cursor_data cursor.old) (front_data front.old) }
    ensures sound { H.is_sound hand.new }
    ensures home { H.home hand.new ≡ H.home hand.old }
    ensures down { GoesDown (H.shows hand.old) (H.shows hand.new) (cursor_data cursor.new) }
    ensures lines { ListsLines (front_data front.old) (front_data front.new) }
    ensures enlisted { IfOk result (λ spent. IsEnlisted (H.shows hand.new) (cursor_data cursor.new)
        (front_data front.new) spent) }
    ensures memory { IfErr result (λ _. Rose (H.shows hand.old).refusals (H.shows hand.new).refusals) }
{
    hand.keeps_limits();
    match try_path(bounds, hand, cursor, &front.paths.paths()[0])? {
        Tried::Passed => Ok(false),
        Tried::Spent => Ok(true),
        Tried::Line(line) => {
            front.lines[0] = Some(line);
            enlist_longer(bounds, hand, cursor, front)
        }
    }
}

/// Enlists the paths after the empty one, each if it is below the least cost.
fn enlist_longer<H: Hand, B: Bounds>(
    bounds: &B,
    hand: &mut H,
    cursor: &mut Cursor,
    front: &mut Front,
) -> Result<bool, Memory>
    requires sound { H.is_sound hand.old }
    requires search { IsSearchOf B.kind B.film (H.shows hand.old) }
    requires begun { IsBegun (H.shows hand.old) (cursor_data cursor.old) (front_data front.old) }
    ensures sound { H.is_sound hand.new }
    ensures home { H.home hand.new ≡ H.home hand.old }
    ensures down { GoesDown (H.shows hand.old) (H.shows hand.new) (cursor_data cursor.new) }
    ensures lines { ListsLines (front_data front.old) (front_data front.new) }
    ensures enlisted { IfOk result (λ spent. IsEnlisted (H.shows hand.new) (cursor_data cursor.new)
        (front_data front.new) spent) }
    ensures memory { IfErr result (λ _. Rose (H.shows hand.old).refusals (H.shows hand.new).refusals) }
{
    hand.keeps_limits();
    let mut spent = false;
    for place in 1..front.lines.len() {
        let tried = try_path(bounds, hand, cursor, &front.paths.paths()[place])?;
        front.lines[place] = tried.line();
        spent |= tried.is_spent();
    }
    Ok(spent)
}
