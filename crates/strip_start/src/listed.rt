// Paths along given orders.
ghost use Rattle.std.specs.Prelude.{◌≡◌, ◌≤◌};
ghost use Rattle.strip_model.specs.Order.{IsKeptOrder};
ghost use Rattle.strip_model.specs.Pay.{pay_of};
ghost use Rattle.strip_film.specs.Path.{IsComplete};
ghost use Rattle.strip_film.specs.Shown.{path_data};

use strip_film::laws::{
    each_set_has_a_ready_scene, kept_orders_are_ready_lists, steps_add_up_to_the_pay,
    what_remains_lies_in_the_film,
};
use strip_film::{Film, Path, ready};

/// Returns the complete path along an order that keeps the film's pairs. Its pay is the order's cost. It takes the time
/// of `Path::extend` for each scene.
pub fn path_of(film: &Film, order: &[u8]) -> Path
    requires { IsKeptOrder film.now order.now }
    ensures complete { IsComplete film.now (path_data result) }
    ensures scenes { (path_data result).scenes ≡ order.now }
    ensures pays { (path_data result).paid ≡ pay_of film.now order.now }
{
    kept_orders_are_ready_lists();
    steps_add_up_to_the_pay();
    film.keeps_limits();
    let mut path = Path::start(film);
    for scene in order {
        path = path.extend(film, u32::from(*scene));
    }
    path
}

/// Returns the cheaper of the given path and the one by scene numbers, or the given one if they pay the same. The path
/// by numbers shoots the ready scene of the lowest number at each turn.
pub fn or_listed(film: &Film, path: &Path) -> Path
    requires { IsComplete film.now (path_data path.now) }
    ensures complete { IsComplete film.now (path_data result) }
    ensures no_dearer { (path_data result).paid ≤ (path_data path.now).paid }
{
    let listed = listed(film);
    if listed.paid() < path.paid() {
        listed
    } else {
        *path
    }
}

/// Returns the path that shoots the ready scene of the lowest number at each turn.
fn listed(film: &Film) -> Path
    ensures { IsComplete film.now (path_data result) }
{
    film.keeps_limits();
    each_set_has_a_ready_scene();
    what_remains_lies_in_the_film();
    let mut path = Path::start(film);
    while let Some(scene) = ready(film, path.rest()).first() {
        path = path.extend(film, scene);
    }
    path
}
