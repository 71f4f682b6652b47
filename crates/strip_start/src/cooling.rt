// The cooling schedule: the slack of the annealing at each try.
ghost use Rattle.std.specs.Prelude.{◌≤◌};

/// Number of tries in a round.
pub(crate) const TRIES_A_ROUND: u32 = 100_000;

/// A cooling schedule. The slack is the cost by which an accepted order may exceed the current one. It falls from a
/// hundredth of the first order's pay for waiting to nothing.
#[derive(Clone, Copy, Debug)]
pub(crate) enum Cooling {
    /// Falls evenly over the given number of tries.
    Even(u32),
    /// Falls over a whole round: to a quarter in the first half, and evenly to nothing in the second.
    InHalves,
}

impl Cooling {
    /// Returns the slack in this turn, if the first order's pay for waiting is `begun`.
    pub(crate) fn slack(self, begun: u64, turn: u32) -> u64 {
        let left = match self {
            Cooling::Even(tries) => 1000 - gone(turn, tries),
            Cooling::InHalves => left_in_halves(gone(turn, TRIES_A_ROUND)),
        };
        (begun / 100).saturating_mul(left) / 1000
    }
}

/// Returns the tries made before this turn, in thousandths of all tries.
fn gone(turn: u32, tries: u32) -> u64
    ensures { result ≤ 1000 }
{
    (u64::from(turn) * 1000 / u64::from(tries.max(1))).min(1000)
}

/// Returns the slack left, in thousandths, after `gone` thousandths of the tries.
fn left_in_halves(gone: u64) -> u64
    requires { gone ≤ 1000 }
{
    if gone < 500 {
        1000 - gone * 3 / 2
    } else {
        (1000 - gone) / 2
    }
}
