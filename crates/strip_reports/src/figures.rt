// A scene's figures in the cost sheet.
ghost use Rattle.std.specs.Prelude.{◌≡◌, ℕ, ◌*◌, ◌<◌, ◌≤◌, length, All, slice_index};
ghost use Rattle.strip_mask.specs.Set.{LiesBelow, has};
ghost use Rattle.strip_mask.specs.Sums.{sum_below};
ghost use Rattle.strip_model.specs.FilmOf.{film_of};
ghost use Rattle.strip_model.specs.Pay.{works};
ghost use Rattle.strip_reports.specs.Days.{days_of, is_held, rate_by, works_among};
ghost use Rattle.strip_reports.specs.Sheet.{figures_at};

use strip_mask::Mask;
use strip_model::Instance;

/// The figures of a scene in the cost sheet.
#[derive(Clone, Copy)]
pub struct Figures {
    /// Its first day, counted from 1 over the whole order.
    pub first: u64,
    /// Its last day, counted from 1 over the whole order.
    pub last: u64,
    pub days: u64,
    /// Number of actors who work in it.
    pub working: u64,
    /// Number of actors who are held during it.
    pub holding: u64,
    /// The pay of all actors for its days, in units of money.
    pub pay: u64,
}

/// Returns the figures of the scene at this place of the order. It takes a turn for each scene of the order and for
/// each actor.
pub fn figures_at(inst: &Instance, order: &[u16], place: usize) -> Figures
    requires order { All (λ scene. scene < length inst.now.scenes) order.now }
    requires short { length order.now ≤ 200 }
    requires place { place < length order.now }
    ensures figures { result ≡ figures_at (film_of inst.now) order.now place }
    ensures small { result.pay ≤ 99 * 64 * 1_000_000_000 }
{
    inst.keeps_limits();
    let working = cast_of(inst, order[place]);
    let held = held_at(inst, order, place);
    let before = days_of(inst, &order[..place]);
    let days = days_in(inst, order[place]);
    Figures {
        first: before + 1,
        last: before + days,
        days,
        working: u64::from(working.size()),
        holding: u64::from(held.size()),
        pay: days * pay_of_day(inst, working, held),
    }
}

/// Returns the number of days of these scenes. It takes a turn for each.
pub fn days_of(inst: &Instance, scenes: &[u16]) -> u64
    requires scenes { All (λ scene. scene < length inst.now.scenes) scenes.now }
    requires short { length scenes.now ≤ 200 }
    ensures days { result ≡ days_of (film_of inst.now) scenes.now }
    ensures small { result ≤ 99 * length scenes.now }
{
    let mut days = 0;
    for &scene in scenes {
        days += days_in(inst, scene);
    }
    days
}

fn days_in(inst: &Instance, scene: u16) -> u64
    requires { scene < length inst.now.scenes }
    ensures days { result ≡ slice_index (film_of inst.now).days scene }
    ensures small { result ≤ 99 }
{
    inst.scenes()[scene as usize].days
}

/// Returns the actors who work in the scene, as a set of actor numbers.
pub fn cast_of(inst: &Instance, scene: u16) -> Mask
    requires { scene < length inst.now.scenes }
    ensures cast { (actor : ℕ) → has result.0 actor ≡ works (film_of inst.now) actor scene }
    ensures lies { LiesBelow (length inst.now.actors) result.0 }
{
    Mask(inst.scenes()[scene as usize].cast)
}

/// Returns the actors who work in at least one of the scenes. It takes a turn for each scene.
fn cast_among(inst: &Instance, scenes: &[u16]) -> Mask
    requires { All (λ scene. scene < length inst.now.scenes) scenes.now }
    ensures cast { (actor : ℕ) → has result.0 actor ≡ works_among (film_of inst.now) scenes.now actor }
    ensures lies { LiesBelow (length inst.now.actors) result.0 }
{
    let mut cast = Mask(0);
    for &scene in scenes {
        cast = cast.union(cast_of(inst, scene));
    }
    cast
}

/// Returns the actors who are held at this place of the order: they work in a scene before it and in one after it, but
/// not in this scene.
pub fn held_at(inst: &Instance, order: &[u16], place: usize) -> Mask
    requires order { All (λ scene. scene < length inst.now.scenes) order.now }
    requires place { place < length order.now }
    ensures held { (actor : ℕ) → has result.0 actor ≡ is_held (film_of inst.now) order.now place actor }
    ensures lies { LiesBelow (length inst.now.actors) result.0 }
{
    let called = cast_among(inst, &order[..place]);
    let needed = cast_among(inst, &order[place + 1..]);
    called.meet(needed).minus(cast_of(inst, order[place]))
}

/// Returns the pay of all actors for a day on which these work and these are held, in units of money. It takes a turn
/// for each actor.
fn pay_of_day(inst: &Instance, working: Mask, held: Mask) -> u64
    ensures pay { result ≡ sum_below (length inst.now.actors)
        (λ actor. rate_by (film_of inst.now) (has working.0 actor) (has held.0 actor) actor) }
    ensures small { result ≤ 64 * 1_000_000_000 }
{
    let mut pay = 0;
    for actor in 0..inst.actors().len() {
        pay += rate_of(inst, working, held, actor);
    }
    pay
}

/// Returns the actor's pay for such a day, in units of money.
fn rate_of(inst: &Instance, working: Mask, held: Mask, actor: usize) -> u64
    requires { actor < length inst.now.actors }
    ensures rate { result ≡ rate_by (film_of inst.now) (has working.0 actor) (has held.0 actor) actor }
    ensures small { result ≤ 1_000_000_000 }
{
    let known = &inst.actors()[actor];
    if working.has(actor as u32) {
        known.rate
    } else if held.has(actor as u32) {
        known.hold
    } else {
        0
    }
}
