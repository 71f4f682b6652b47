// A running state, updated in place, worked by hand on three scenes of two actors each.
ghost use Rattle.std.specs.Prelude.{◌≡◌, ℕ, ◌<◌, length, IsTrue};
ghost use Rattle.strip_film.specs.Running.{IsRunning};
ghost use Rattle.strip_film.specs.Shown.{running_data};

use crate::films::plain_triangle;
use std::test::Fail;
use strip_film::{Film, Path, Running, laws, ready};

/// Tells whether the state is as worked by hand after a scene, after a second one, and after that is taken back.
fn moves(film: &Film) -> bool {
    let mut state = Running::of(film, &Path::start(film));
    let first = takes(&mut state, film, 0) && is_after_the_first(&state, film);
    let second = takes(&mut state, film, 1) && is_after_the_second(&state);
    let back = takes_back(&mut state, film) && is_after_the_first(&state, film);
    first && second && back
}

#[test]
fn moves_forward_and_back(rt: HostRuntime) -> Result<(), Fail> {
    let film = plain_triangle(rt.alloc())?;
    assert!(&rt; moves(&film));
    Ok(())
}

fn is_after_the_second(state: &Running) -> bool {
    state.rest().0 == 0b100 && state.on().0 == 0b101 && state.paid() == 9
}

fn takes(state: &mut Running, film: &Film, scene: u32) -> bool
    requires { IsRunning film.now (running_data state.old) }
    ensures { IsRunning film.now (running_data state.new) }
{
    laws::what_remains_lies_in_the_film();
    if scene >= 64 || !ready(film, state.rest()).has(scene) {
        return false;
    }
    state.take(film, scene);
    true
}

// Returns false if no scene was shot.
fn takes_back(state: &mut Running, film: &Film) -> bool
    requires { IsRunning film.now (running_data state.old) }
    ensures { IsRunning film.now (running_data state.new) }
{
    if state.path().scenes().is_empty() {
        return false;
    }
    state.back(film);
    true
}

fn is_after_the_first(state: &Running, film: &Film) -> bool
    requires { IsRunning film.now (running_data state.now) }
{
    let counts = state.done(0) == 1 && state.left(0) == 1 && state.left(2) == 2;
    if !counts || state.on().0 != 0b011 || state.paid() != 3 {
        return false;
    }
    state.rest().has(1) && state.step(film, 1) == 6
}
