// The greedy order.
ghost use Rattle.std.specs.Prelude.{◌≡◌, nat_lt, IfSome, MatchBool, MatchOption};
ghost use Rattle.strip_film.specs.Path.{IsComplete};
ghost use Rattle.strip_film.specs.Running.{IsRunning};
ghost use Rattle.strip_film.specs.Shown.{path_data, running_data};
ghost use Rattle.strip_start.specs.Greedy.{IsGreedy, IsLeastStep};

use strip_film::{Film, Path, Running, ready};

/// Returns the greedy path: at each turn it shoots the ready scene with the least step cost, or the lowest number among
/// equals. It allocates no memory. Time is quadratic in the number of scenes, times the number of actors who are paid.
pub fn greedy(film: &Film) -> Path
    ensures complete { IsComplete film.now (path_data result) }
    ensures greedy { IsGreedy film.now (path_data result).scenes }
{
    film.keeps_limits();
    let mut state = Running::of(film, &Path::start(film));
    while let Some(scene) = least_step(film, &state) {
        state.take(film, scene);
    }
    *state.path()
}

/// A scene that can be shot next, and its step cost.
#[derive(Clone, Copy, Debug)]
struct Choice {
    scene: u32,
    step: u64,
}

/// Finds the ready scene with the least step cost, or the lowest number among equals, or none if no scene remains.
fn least_step(film: &Film, state: &Running) -> Option<u32>
    requires { IsRunning film.now (running_data state.now) }
    ensures some { IfSome result (IsLeastStep film.now (running_data state.now).path.rest) }
    ensures none { result ≡ None → (running_data state.now).path.rest ≡ 0 }
{
    film.keeps_limits();
    let mut best = None;
    for scene in ready(film, state.rest()).iter() {
        let step = state.step(film, scene);
        best = Some(lesser(best, Choice { scene, step }));
    }
    Some(best?.scene)
}

/// Returns the choice that costs less, or the earlier one if they cost the same.
fn lesser(best: Option<Choice>, found: Choice) -> Choice
    ensures { MatchOption best (result ≡ found) (λ b. MatchBool (nat_lt found.step b.step) (result ≡ found) (result
        ≡ b)) }
{
    match best {
        Some(best) if best.step <= found.step => best,
        _ => found,
    }
}
