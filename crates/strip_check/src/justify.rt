// Bounds that a plan's lines justify.
ghost use Rattle.std.specs.Prelude.{◌≡◌, ◌≢◌, ◌↔◌, ℕ, ◌+◌, ◌<◌, ◌≤◌, nat_le, true, All, IsTrue};
ghost use Rattle.strip_mask.specs.Set.{has, members, without};
ghost use Rattle.strip_film.specs.Film.{LiesIn};
ghost use Rattle.strip_film.specs.Shoot.{on_location, step_cost};
ghost use Rattle.strip_lines.specs.Lines.{known, least_step, rules_of};
ghost use Rattle.strip_check.specs.Reasons.{by_lines, justified};

use strip_bound::Bounds;
use strip_film::{Film, on, step, step_with};
use strip_mask::Mask;
use strip_memo::Memo;
use strip_model::Kind;
use strip_rule::{open_firsts, open_firsts_with};
use strip_trim::Best;

/// Tells whether the lines justify a bound for a set: its static bound reaches it, or the step plus known bound of the
/// rest does for each open first. If static bounds are expensive, the steps are tried first.
pub(crate) fn is_justified<B: Bounds>(
    bounds: &B,
    memo: &mut Memo<B>,
    best: &Best,
    q: Mask,
    bound: u64,
) -> bool
    requires lies { LiesIn B.film q.0 }
    ensures justified { result
        ≡ nat_le bound (justified (rules_of B.kind B.film) best.now.lines q.0) }
{
    if is_dear(bounds.kind()) && is_by_steps(bounds, memo, best, q, bound) {
        return true;
    }
    if memo.reach(bounds, q, bound) >= bound {
        return true;
    }
    is_by_steps(bounds, memo, best, q, bound)
}

/// Tells whether static bounds of this kind take longer than a lookup of lines. Only the running time depends on it.
fn is_dear(kind: Kind) -> bool {
    match kind {
        Kind::Plain | Kind::Pairs | Kind::Groups => false,
        Kind::Arrivals => true,
    }
}

/// Tells whether the set has open firsts, and the step of each plus the known bound of the rest reaches the bound.
fn is_by_steps<B: Bounds>(bounds: &B, memo: &mut Memo<B>, best: &Best, q: Mask, bound: u64) -> bool
    requires lies { LiesIn B.film q.0 }
    ensures enough { IsTrue result → bound ≤ justified (rules_of B.kind B.film) best.now.lines q.0 }
    ensures decides { (rules_of B.kind B.film).bound q.0 < bound
        → result ≡ nat_le bound (justified (rules_of B.kind B.film) best.now.lines q.0) }
{
    let film = bounds.film();
    film.keeps_limits();
    let on = on(film, q);
    let firsts = open_firsts_with(film, q, on);
    !firsts.is_empty() && steps_reach(bounds, memo, best, q, on, firsts, bound)
}

/// Tells whether each open first's step plus the known bound of the rest reaches the bound.
fn steps_reach<B: Bounds>(
    bounds: &B,
    memo: &mut Memo<B>,
    best: &Best,
    q: Mask,
    on: Mask,
    firsts: Mask,
    bound: u64,
) -> bool
    requires lies { LiesIn B.film q.0 }
    requires on { on.0 ≡ on_location B.film q.0 }
    requires firsts { (scene : ℕ) → has firsts.0 scene ≡ true → has q.0 scene ≡ true }
    ensures reach { IsTrue result ↔ All (λ scene. bound ≤ step_cost B.film q.0 scene
        + known (rules_of B.kind B.film) best.now.lines (without q.0 scene)) (members firsts.0) }
{
    for scene in firsts.iter() {
        if !step_reaches(bounds, memo, best, q, on, scene, bound) {
            return false;
        }
    }
    true
}

/// Tells whether the step of a scene plus the known bound of the rest reaches the bound.
fn step_reaches<B: Bounds>(
    bounds: &B,
    memo: &mut Memo<B>,
    best: &Best,
    q: Mask,
    on: Mask,
    s: u32,
    bound: u64,
) -> bool
    requires lies { LiesIn B.film q.0 }
    requires on { on.0 ≡ on_location B.film q.0 }
    requires scene { has q.0 s ≡ true }
    ensures reach { IsTrue result ↔ (bound ≤ step_cost B.film q.0 s
        + known (rules_of B.kind B.film) best.now.lines (without q.0 s)) }
{
    let film = bounds.film();
    film.keeps_limits();
    let step = step_with(film, on, s);
    step >= bound || is_known(bounds, memo, best, q.without(s), bound - step)
}

/// Tells whether a set's static bound or one of its lines reaches `need`.
fn is_known<B: Bounds>(bounds: &B, memo: &mut Memo<B>, best: &Best, q: Mask, need: u64) -> bool
    requires lies { LiesIn B.film q.0 }
    ensures known { IsTrue result ↔ (need ≤ known (rules_of B.kind B.film) best.now.lines q.0) }
{
    if is_dear(bounds.kind()) && best.bound_of(q.0) >= need {
        return true;
    }
    memo.reach(bounds, q, need) >= need || best.bound_of(q.0) >= need
}

/// Returns the greatest bound that the lines justify for a set, in units of money. Static bounds are computed in full.
/// The sums may exceed 64 bits, since a plan's bounds may be any numbers.
pub(crate) fn justified<B: Bounds>(bounds: &B, best: &Best, q: Mask) -> u128
    requires lies { LiesIn B.film q.0 }
    ensures { result ≡ justified (rules_of B.kind B.film) best.now.lines q.0 }
{
    let bound = u128::from(bounds.whole(q));
    let film = bounds.film();
    let firsts = open_firsts(film, q);
    if firsts.is_empty() {
        return bound;
    }
    bound.max(least_step(bounds, best, q, firsts))
}

/// Returns the least step plus known bound of the rest, over these open firsts.
fn least_step<B: Bounds>(bounds: &B, best: &Best, q: Mask, firsts: Mask) -> u128
    requires lies { LiesIn B.film q.0 }
    requires firsts { (scene : ℕ) → has firsts.0 scene ≡ true → has q.0 scene ≡ true }
    requires some { firsts.0 ≢ 0 }
    ensures { (none : ℕ) → result ≡ least_step (by_lines (rules_of B.kind B.film) best.now.lines)
        q.0 none (members firsts.0) }
{
    let film = bounds.film();
    film.keeps_limits();
    let mut least = u128::MAX;
    for scene in firsts.iter() {
        let step = step(film, q, scene);
        let rest = known(bounds, best, q.without(scene));
        least = least.min(u128::from(step) + u128::from(rest));
    }
    least
}

/// Returns the bound known of a set, in units of money: the greater of its static bound and its lines' bounds.
pub(crate) fn known<B: Bounds>(bounds: &B, best: &Best, q: Mask) -> u64
    requires lies { LiesIn B.film q.0 }
    ensures { result ≡ known (rules_of B.kind B.film) best.now.lines q.0 }
{
    bounds.whole(q).max(best.bound_of(q.0))
}
