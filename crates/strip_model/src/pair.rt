// Pairs (precedence constraints) of scenes.
ghost use Rattle.std.specs.Prelude.{◌≡◌, ◌↔◌, ℕ, ◌<◌, ◌≤◌, Contains, IsTrue};
ghost use Rattle.strip_model.specs.Order.{Keeps, StandsBefore};

/// A pair: scene number `first` has to be shot before scene number `then`.
#[derive(Clone, Copy, Debug, PartialEq, Eq)]
pub struct Pair {
    pub first: u16,
    pub then: u16,
}

/// Returns whether the order keeps the pairs: each pair's first scene stands before the other. If no scene occurs twice
/// in the list, time is the product of the numbers of pairs and scenes.
pub fn keeps(pairs: &[Pair], order: &[u16]) -> bool
    ensures { IsTrue result ↔ Keeps pairs.now order.now }
{
    for pair in pairs {
        if !stands_before(order, pair.first, pair.then) {
            return false;
        }
    }
    true
}

/// Returns whether the list has number `first`, and number `then` somewhere behind it.
fn stands_before(order: &[u16], first: u16, then: u16) -> bool
    ensures { IsTrue result ↔ StandsBefore first then order.now }
{
    for (place, &scene) in order.iter().enumerate() {
        if scene == first && stands_in(&order[place + 1..], then) {
            return true;
        }
    }
    false
}

/// Returns whether the list has the number. Time is linear in the list's length.
pub fn stands_in(order: &[u16], number: u16) -> bool
    ensures { IsTrue result ↔ Contains order.now number }
{
    order.contains(&number)
}
