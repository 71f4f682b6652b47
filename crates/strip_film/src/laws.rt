//! Laws of films, step costs and the cost of finishing: functions that do nothing when they run, with theorems as
//! contracts.
ghost use Rattle.std.specs.Prelude.{◌≡◌, ◌≢◌, ◌↔◌, ℕ, ◌+◌, ◌*◌, ◌^◌, ◌<◌, ◌≤◌, true, List, [], length, slice_index};
ghost use Rattle.strip_mask.specs.Set.{IsSet, has, minus, sum_over};
ghost use Rattle.strip_model.specs.Film.{FilmData};
ghost use Rattle.strip_model.specs.Order.{IsKeptOrder, IsOrder};
ghost use Rattle.strip_model.specs.Pay.{IsOptimum, pay_of};
ghost use Rattle.strip_film.specs.Film.{IsFilm, LiesIn, all_scenes};
ghost use Rattle.strip_film.specs.Shoot.{cast_of, on_location, ready, step_cost};
ghost use Rattle.strip_film.specs.Located.{IsReady, WorksInside, WorksOutside};
ghost use Rattle.strip_film.specs.Finish.{AreFirsts, EachOnce, IsAtMostFinish, IsFinish, steps_cost};
ghost use Rattle.strip_film.specs.Path.{IsPath, PathData};
ghost use Rattle.strip_film.specs.Running.{IsRunning, RunningData};
ghost use Rattle.strip_film.specs.Rules.{BeginLeast};

/// A set's cast is the actors who work in a scene of it. An actor is on location if he also works in a scene outside
/// it, which was shot before.
pub fn casts_are_by_scenes()
    ensures cast { (film : FilmData) (set actor : ℕ) → IsSet set
        → (has (cast_of film set) actor ≡ true) ↔ WorksInside film set actor }
    ensures location { (film : FilmData) (set actor : ℕ) → IsFilm film → LiesIn film set
        → (has (on_location film set) actor ≡ true) ↔ (WorksInside film set actor × WorksOutside film set actor) }
{}

/// A scene of a set is ready if no pair puts another scene of the set before it. If the film has no pairs, all are
/// ready.
pub fn ready_scenes_are_by_pairs()
    ensures pairs { (film : FilmData) (set scene : ℕ) → (has (ready film set) scene ≡ true) ↔ IsReady film set scene }
    ensures none { (film : FilmData) (set : ℕ) → film.pairs ≡ [] → ready film set ≡ set }
{}

/// Every nonempty set of scenes has a ready scene, since a film's pairs have no cycle.
pub fn each_set_has_a_ready_scene()
    ensures { (film : FilmData) (set : ℕ) → IsFilm film → IsSet set → set ≢ 0
        → (scene : ℕ) × (has (ready film set) scene ≡ true) }
{}

/// The orders that keep the pairs are the lists with each scene of the film once, each ready when it is shot.
pub fn kept_orders_are_ready_lists()
    ensures { (film : FilmData) (order : List ℕ) → IsFilm film
        → EachOnce film (all_scenes film) order ↔ IsKeptOrder film order }
{}

/// The steps along an order add up to its pay, whether it keeps the pairs or not. The pay is defined by each actor's
/// first and last scene.
pub fn steps_add_up_to_the_pay()
    ensures { (film : FilmData) (order : List ℕ) → IsFilm film → IsOrder (length film.casts) order
        → steps_cost film (all_scenes film) order ≡ pay_of film order }
{}

/// The cost of finishing all scenes is the optimum of the film.
pub fn finishing_everything_is_the_optimum()
    ensures { (film : FilmData) (cost : ℕ) → IsFilm film
        → IsFinish film (all_scenes film) cost ↔ IsOptimum film cost }
{}

/// Every set of scenes has a cost of finishing: among its lists of ready scenes, one has the least tail cost.
pub fn a_least_tail_exists()
    ensures { (film : FilmData) (set : ℕ) → IsFilm film → IsSet set → (cost : ℕ) × IsFinish film set cost }
{}

/// If each ready scene of a set may be shot first, one of these firsts begins a least tail.
pub fn ready_firsts_begin_least_tails()
    ensures { (film : FilmData) (bound : ℕ → ℕ) (promise : ℕ → ℕ → ℕ) → IsFilm film
        → BeginLeast (record { film = film; bound = bound; firsts = ready film; promise = promise }) }
{}

/// The scenes that remain after a path are scenes of the film.
pub fn what_remains_lies_in_the_film()
    ensures { (film : FilmData) (path : PathData) → IsPath film path → LiesIn film path.rest }
{}

/// The counts of a running state tell who is on location: each actor who has a scene shot and a scene left.
pub fn counts_tell_who_is_on_location()
    ensures { (film : FilmData) (state : RunningData) (actor : ℕ) → IsRunning film state → actor < length film.rates
        → (has state.on actor ≡ true) ↔ ((0 < slice_index state.done actor) × (0 < slice_index state.left actor)) }
{}

/// Fewer actors on location never make a step dearer.
pub fn fewer_on_location_cost_no_more()
    ensures { (film : FilmData) (scene few many : ℕ)
        → ((actor : ℕ) → has few actor ≡ true → has many actor ≡ true)
        → slice_index film.days scene * (sum_over film.rates (slice_index film.casts scene)
        + sum_over film.holds (minus few (slice_index film.casts scene)))
        ≤ slice_index film.days scene * (sum_over film.rates (slice_index film.casts scene)
        + sum_over film.holds (minus many (slice_index film.casts scene))) }
{}

/// These costs are below 2^63: a step, the steps along scenes of a set, ready or not, and the pay of a path.
pub fn costs_stay_small()
    ensures step { (film : FilmData) (set scene : ℕ) → IsFilm film → IsSet set → has set scene ≡ true
        → step_cost film set scene < 2 ^ 63 }
    ensures steps { (film : FilmData) (set : ℕ) (scenes : List ℕ) → IsFilm film → IsSet set
        → AreFirsts (λ q. q) set scenes
        → steps_cost film set scenes < 2 ^ 63 }
    ensures paid { (film : FilmData) (path : PathData) → IsFilm film → IsPath film path → path.paid < 2 ^ 63 }
{}
