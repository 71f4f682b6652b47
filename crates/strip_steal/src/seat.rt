// The two ends of a queue.
ghost use Rattle.std.specs.Prelude.{◌≡◌};
ghost use Rattle.crossbeam_deque.specs.Handles.{IsPassOf, stealer_deque, view};

use crate::rule::Rule;
use crate::share::Share;
use crossbeam_deque::{Pass, Stealer, Worker};
use std::alloc::Global;

/// The owner's end of a queue, at which entries are put: numbers first, and then one sentinel (`None`, an end) for each
/// taker.
pub type Owner = Worker<Option<u32>, Global, Share, Rule>;

/// A taker's end of a queue: a pass, and whether it took a sentinel. Taking one proves that no number is left.
#[derive(Drop)]
pub struct Seat {
    pub(crate) queue: Stealer<Option<u32>, Global, Share, Rule>,
    pub(crate) pass: Pass<Option<u32>, Share>,
    pub(crate) has_ended: bool,
    pub ghost seated: { IsPassOf (stealer_deque queue) pass },
    pub ghost says: { has_ended ≡ (view pass).ended },
}
