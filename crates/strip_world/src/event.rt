// Events and replies.

use strip_film::{Known, Listed, Noted, Path, Probe};

/// An event: one action of worker `who` on the world:
///
/// - `Look`: asks for the least cost;
/// - `Offer`: offers a complete path;
/// - `Claim`: claims the next part;
/// - `Enlist`: enlists a path in a part, which makes a line;
/// - `Raise`: raises the bound of a line;
/// - `Probe`: looks up a set in the table;
/// - `Note`: inserts a known line into the table.
#[derive(Clone, Copy, Debug)]
pub enum Event {
    Look { who: u32 },
    Offer { who: u32, path: Path },
    Claim { who: u32 },
    Enlist { who: u32, task: u32, path: Path },
    Raise { who: u32, line: u32, bound: u64 },
    Probe { who: u32, set: u64 },
    Note { who: u32, known: Known },
}

/// The reply to an event. Look and offer get the least cost, in units of money. A claim gets the part, if one was left.
/// Enlist gets the new line, or `Spent` if the line budget is used up. Probe and note get the table's answer.
#[derive(Clone, Copy, Debug, PartialEq, Eq)]
pub enum Reply {
    Least(u64),
    Task(Option<u32>),
    Listed(Listed),
    Raised,
    Probed(Probe),
    Noted(Noted),
}
