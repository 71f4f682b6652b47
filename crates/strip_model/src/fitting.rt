// Validity of pairs.
ghost use Rattle.std.specs.Prelude.{◌≡◌, ◌≢◌, ◌↔◌, ℕ, ◌<◌, ◌≤◌, List, [], ◌∷◌, ◌++◌, IsTrue};
ghost use Rattle.strip_model.specs.declared.pair.Pair.{Pair};
ghost use Rattle.strip_model.specs.Befores.{Knows};
ghost use Rattle.strip_model.specs.Pairs.{FitPairs, IsKnownPair};

use crate::befores::Befores;
use crate::pair::Pair;

/// Maximum number of scenes.
pub const MAX_SCENES: usize = 200;

/// Returns whether the pairs are valid for `scenes` scenes, at most 200. Each pair must have two different scenes below
/// `scenes`, no pair may occur twice, and the pairs may have no cycle. It takes a few instructions for each pair, and
/// 200 iterations for one that earlier pairs don't imply.
pub fn fit(pairs: &[Pair], scenes: usize) -> bool
    requires { scenes ≤ 200 }
    ensures { IsTrue result ↔ FitPairs scenes pairs.now }
{
    let mut befores = Befores::new();
    for pair in pairs {
        if !fits_behind(&befores, pair, scenes) {
            return false;
        }
        befores.add(*pair);
    }
    true
}

/// Returns whether a valid list of pairs, known as `befores`, stays valid if this pair is appended.
fn fits_behind(befores: &Befores, pair: &Pair, scenes: usize) -> bool
    requires { scenes ≤ 200 }
    ensures known { IsTrue result → IsKnownPair scenes pair.now }
    ensures fits { (pairs : List Pair) → Knows befores.now pairs → FitPairs scenes pairs → IsTrue result
        ↔ FitPairs scenes (pairs ++ pair.now ∷ []) }
{
    is_known(pair, scenes) && !befores.stands(*pair) && !befores.leads(pair.then, pair.first)
}

fn is_known(pair: &Pair, scenes: usize) -> bool
    ensures { IsTrue result ↔ IsKnownPair scenes pair.now }
{
    (pair.first as usize) < scenes && (pair.then as usize) < scenes && pair.first != pair.then
}
