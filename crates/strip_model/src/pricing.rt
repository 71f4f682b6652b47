// Orders of an instance, and their pay.
ghost use Rattle.std.specs.Prelude.{◌≡◌, ◌↔◌, ℕ, ◌*◌, ◌<◌, ◌≤◌, List, length, All, sum_by, count_by, if◌then◌else◌, slice_index, ◌==◌, IsTrue};
ghost use Rattle.strip_model.specs.Order.{IsOrder, Keeps};
ghost use Rattle.strip_model.specs.Pay.{pay_of, day_pay, from_first, span, to_last, works};
ghost use Rattle.strip_model.specs.FilmOf.{film_of};

use crate::instance::Instance;
use strip_mask::Mask;

/// Returns whether the list has each scene number of the instance exactly once, and no other number. It allocates no
/// memory. Time is quadratic in the number of scenes.
pub fn is_order(inst: &Instance, order: &[u16]) -> bool
    ensures { IsTrue result ↔ IsOrder (length inst.now.scenes) order.now }
{
    let count = inst.scenes().len();
    lie_below(order, count) && have_each_once(order, count)
}

fn lie_below(order: &[u16], count: usize) -> bool
    ensures { IsTrue result ↔ All (λ scene. scene < count) order.now }
{
    order.iter().all(|scene| (*scene as usize) < count)
}

fn have_each_once(order: &[u16], count: usize) -> bool
    ensures { IsTrue result ↔ ((scene : ℕ) → scene < count → count_by (λ x. x == scene) order.now ≡ 1) }
{
    for scene in 0..count {
        if times_in(order, scene) != 1 {
            return false;
        }
    }
    true
}

fn times_in(order: &[u16], scene: usize) -> usize
    ensures { result ≡ count_by (λ x. x == scene) order.now }
{
    order.iter().filter(|x| **x as usize == scene).count()
}

/// Returns whether the list has each pair's first scene, and the other scene somewhere behind it. It allocates no
/// memory. Time is the product of the numbers of pairs and scenes.
pub fn keeps_pairs(inst: &Instance, order: &[u16]) -> bool
    ensures { IsTrue result ↔ Keeps inst.now.pairs order.now }
{
    crate::pair::keeps(inst.pairs(), order)
}

/// Returns the pay of the order, in units of money. An actor is paid for the scenes from his first to his last: their
/// days at his rate if he works, and at his hold rate if he waits. An actor without scenes is paid nothing. It
/// allocates no memory. Time is the product of the numbers of scenes and actors.
pub fn pay(inst: &Instance, order: &[u16]) -> u64
    requires { IsOrder (length inst.now.scenes) order.now }
    ensures { result ≡ pay_of (film_of inst.now) order.now }
{
    let mut total = 0;
    for actor in 0..inst.actors().len() {
        total += pay_of_actor(inst, order, actor);
    }
    total
}

/// Returns the actor's pay for the scenes from his first to his last.
fn pay_of_actor(inst: &Instance, order: &[u16], actor: usize) -> u64
    requires order { All (λ scene. scene < length inst.now.scenes) order.now }
    requires short { length order.now ≤ 200 }
    requires actor { actor < length inst.now.actors }
    ensures pay { result ≡ sum_by (day_pay (film_of inst.now) actor) (span (film_of inst.now) order.now actor) }
    ensures small { result ≤ 99 * 1_000_000_000 * 200 }
{
    pay_to_last(inst, from_first_scene(inst, order, actor), actor)
}

/// Returns the part of the order from the actor's first scene on.
fn from_first_scene<'a>(inst: &Instance, order: &'a [u16], actor: usize) -> &'a [u16]
    requires order { All (λ scene. scene < length inst.now.scenes) order.now }
    requires actor { actor < length inst.now.actors }
    ensures { result.now ≡ from_first (works (film_of inst.now) actor) order.now }
{
    for (place, &scene) in order.iter().enumerate() {
        if works_in(inst, actor, scene) {
            return &order[place..];
        }
    }
    &[]
}

/// Returns the actor's pay for the scenes up to his last.
fn pay_to_last(inst: &Instance, order: &[u16], actor: usize) -> u64
    requires order { All (λ scene. scene < length inst.now.scenes) order.now }
    requires short { length order.now ≤ 200 }
    requires actor { actor < length inst.now.actors }
    ensures pay { result ≡ sum_by (day_pay (film_of inst.now) actor)
        (to_last (works (film_of inst.now) actor) order.now) }
    ensures small { result ≤ 99 * 1_000_000_000 * length order.now }
{
    let mut pay = 0;
    let mut to_last = 0;
    for &scene in order {
        pay += day_pay(inst, actor, scene);
        if works_in(inst, actor, scene) {
            to_last = pay;
        }
    }
    to_last
}

fn works_in(inst: &Instance, actor: usize, scene: u16) -> bool
    requires scene { scene < length inst.now.scenes }
    requires actor { actor < length inst.now.actors }
    ensures { result ≡ works (film_of inst.now) actor scene }
{
    Mask(inst.scenes()[scene as usize].cast).has(actor as u32)
}

/// Returns the actor's pay for a scene, whether he works in it or waits.
fn day_pay(inst: &Instance, actor: usize, scene: u16) -> u64
    requires scene { scene < length inst.now.scenes }
    requires actor { actor < length inst.now.actors }
    ensures pay { result ≡ day_pay (film_of inst.now) actor scene }
    ensures small { result ≤ 99 * 1_000_000_000 }
{
    days_in(inst, scene) * rate_in(inst, actor, scene)
}

fn days_in(inst: &Instance, scene: u16) -> u64
    requires { scene < length inst.now.scenes }
    ensures days { result ≡ slice_index (film_of inst.now).days scene }
    ensures small { result ≤ 99 }
{
    inst.scenes()[scene as usize].days
}

/// Returns the actor's pay for a day of the scene.
fn rate_in(inst: &Instance, actor: usize, scene: u16) -> u64
    requires scene { scene < length inst.now.scenes }
    requires actor { actor < length inst.now.actors }
    ensures rate { result ≡ (if works (film_of inst.now) actor scene
        then slice_index (film_of inst.now).rates actor else slice_index (film_of inst.now).holds actor) }
    ensures small { result ≤ 1_000_000_000 }
{
    let known = &inst.actors()[actor];
    if works_in(inst, actor, scene) {
        known.rate
    } else {
        known.hold
    }
}
