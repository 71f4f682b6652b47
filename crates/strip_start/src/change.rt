// Moves of the annealing: changes of a piece of an order.
ghost use Rattle.std.specs.Prelude.{◌≡◌, ◌<◌, ◌≤◌, ◌+◌, ◌-◌, length};
ghost use Rattle.strip_film.specs.declared.limits.TheConstants.{MAX_COUNT};

use strip_film::MAX_COUNT;

/// The change of a piece: its first scenes, of the given number, go behind the others, or the piece is reversed.
#[derive(Clone, Copy, Debug)]
enum Turn {
    Behind(usize),
    Round,
}

/// A change of an order: the piece from place `first` to before place `end`, and how it changes.
#[derive(Clone, Copy, Debug)]
pub(crate) struct Change {
    pub(crate) first: usize,
    pub(crate) end: usize,
    turn: Turn,
    pub ghost inside: { (first < end) × (end ≤ MAX_COUNT) },
}

impl Change {
    /// Makes the change that moves `size` scenes from place `from` on to place `to`, or none if the places are equal.
    pub(crate) fn moved(size: usize, from: usize, to: usize) -> Option<Change>
        requires size { 0 < size }
        requires from { from + size ≤ MAX_COUNT }
        requires to { to + size ≤ MAX_COUNT }
    {
        if from < to {
            Some(Change {
                first: from,
                end: to + size,
                turn: Turn::Behind(size),
            })
        } else if to < from {
            Some(Change {
                first: to,
                end: from + size,
                turn: Turn::Behind(from - to),
            })
        } else {
            None
        }
    }

    /// Makes the change that reverses the scenes between the two places, inclusive, or none if the places are equal.
    pub(crate) fn turned(one: usize, other: usize) -> Option<Change>
        requires one { one < MAX_COUNT }
        requires other { other < MAX_COUNT }
    {
        let (first, last) = (one.min(other), one.max(other));
        if first == last {
            return None;
        }
        Some(Change {
            first,
            end: last + 1,
            turn: Turn::Round,
        })
    }

    /// Writes the changed piece.
    pub(crate) fn write(&self, piece: &[u8], changed: &mut [u8])
        requires { length piece.now ≡ length changed.old }
    {
        match self.turn {
            Turn::Behind(count) => {
                let (front, rest) = piece.split_at(count.min(piece.len()));
                let (earlier, later) = changed.split_at_mut(rest.len());
                earlier.copy_from_slice(rest);
                later.copy_from_slice(front);
            }
            Turn::Round => {
                changed.copy_from_slice(piece);
                changed.reverse();
            }
        }
    }
}
