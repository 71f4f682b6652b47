// Exit from a path.
ghost use Rattle.std.specs.Prelude.{◌≡◌};
ghost use Rattle.strip_lines.specs.Lines.{line_at};
ghost use Rattle.strip_hand.specs.Calls.{MayRaise};
ghost use Rattle.strip_walk.specs.Begun.{Closes};

use crate::found::Found;
use strip_film::Known;
use strip_hand::Hand;
use strip_io::Memory;

/// Raises the line of the remaining set to the bound, and notes it in the table. If the note is refused memory, the
/// entry is left out.
pub(crate) fn close<H: Hand>(hand: &mut H, known: &Known, spent: bool) -> Result<Found, Memory>
    requires sound { H.is_sound hand.old }
    requires may { MayRaise (H.shows hand.old) known.now.line known.now.bound }
    requires set { (line_at (H.shows hand.old).lines known.now.line).set ≡ known.now.set }
    ensures sound { H.is_sound hand.new }
    ensures home { H.home hand.new ≡ H.home hand.old }
    ensures closed { Closes (H.shows hand.old) known.now spent result (H.shows hand.new) }
{
    hand.raise(known.line, known.bound)?;
    let _ = hand.note(known);
    hand.keeps_limits();
    Ok(Found {
        bound: known.bound,
        line: Some(known.line),
        spent,
    })
}
