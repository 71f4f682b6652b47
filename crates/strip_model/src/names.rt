// Lists of items with different names.
ghost use Rattle.std.specs.Prelude.{◌≡◌, ◌≢◌, ◌↔◌, ℕ, ◌<◌, List, ◌==◌, true, false, length, All, Any, IsTrue};
ghost use Rattle.std.specs.List.{AllPairs};

/// An item with a name.
pub(crate) trait HasName {
    ghost name: { Self → List ℕ };

    fn name(&self) -> &str
        ensures { result.now ≡ name self.now };
}

/// Returns whether no two items share a name. Time is quadratic in their number.
pub(crate) fn have_own_names<N: HasName>(items: &[N]) -> bool
    ensures { IsTrue result ↔ AllPairs (λ a b. N.name a ≢ N.name b) items.now }
{
    for (place, item) in items.iter().enumerate() {
        if is_taken(&items[..place], item.name()) {
            return false;
        }
    }
    true
}

fn is_taken<N: HasName>(items: &[N], name: &str) -> bool
    ensures { IsTrue result ↔ Any (λ item. N.name item ≡ name.now) items.now }
{
    items.iter().any(|item| item.name() == name)
}
