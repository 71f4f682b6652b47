// Checks of a path, and the order of two paths.
ghost use Rattle.std.specs.Prelude.{◌≡◌, ◌↔◌, ◌<◌, true, IsTrue, IfSome, IfNone};
ghost use Rattle.strip_mask.specs.Set.{has};
ghost use Rattle.strip_film.specs.Film.{LiesIn, all_scenes};
ghost use Rattle.strip_film.specs.Finish.{AreFirsts, Remained};
ghost use Rattle.strip_film.specs.Path.{IsComplete, IsPath};
ghost use Rattle.strip_film.specs.Ranks.{IsEarlier, IsSooner};
ghost use Rattle.strip_film.specs.Rules.{rank};
ghost use Rattle.strip_film.specs.Shown.{path_data};
ghost use Rattle.strip_lines.specs.Lines.{rules_of};
ghost use Rattle.strip_rule.specs.Rule.{open_firsts};

use strip_bound::{Bounds, rank};
use strip_film::{Film, Path, ready};
use strip_mask::Mask;
use strip_rule::open_firsts;

/// Returns whether the path is a complete path of the film. It takes the time of `is_path`.
pub(crate) fn is_complete(film: &Film, path: &Path) -> bool
    ensures { IsTrue result ↔ IsComplete film.now (path_data path.now) }
{
    is_path(film, path) && path.rest().is_empty()
}

/// Returns whether the path is an open path of the film. It takes the time of `is_path`, and that of `open_firsts` for
/// each scene.
pub(crate) fn is_open(film: &Film, path: &Path) -> bool
    ensures { IsTrue result ↔ (IsPath film.now (path_data path.now)
        × AreFirsts (open_firsts film.now) (all_scenes film.now) (path_data path.now).scenes) }
{
    is_path(film, path) && are_open(film, path.scenes())
}

/// Returns whether the path is a path of the film, by making it again from its scenes. It takes the time of
/// `Path::extend` for each scene.
fn is_path(film: &Film, path: &Path) -> bool
    ensures { IsTrue result ↔ IsPath film.now (path_data path.now) }
{
    match path_along(film, path.scenes()) {
        Some(own) => own.rest() == path.rest() && own.paid() == path.paid(),
        None => false,
    }
}

/// Returns the path of the film along the scenes, or none if some scene is not ready in its turn.
fn path_along(film: &Film, scenes: &[u8]) -> Option<Path>
    ensures path { IfSome result (λ path. IsPath film.now (path_data path) × ((path_data path).scenes ≡ scenes.now)) }
    ensures none { IfNone result (¬ Remained film.now (all_scenes film.now) scenes.now) }
{
    film.keeps_limits();
    let mut path = Path::start(film);
    for scene in scenes {
        if !is_in(ready(film, path.rest()), *scene) {
            return None;
        }
        path = path.extend(film, *scene as u32);
    }
    Some(path)
}

/// Returns whether each scene is an open first of the set that remains in its turn.
fn are_open(film: &Film, scenes: &[u8]) -> bool
    ensures { IsTrue result ↔ AreFirsts (open_firsts film.now) (all_scenes film.now) scenes.now }
{
    film.keeps_limits();
    let mut rest = film.all();
    for scene in scenes {
        if !is_in(open_firsts(film, rest), *scene) {
            return false;
        }
        rest = rest.without(*scene as u32);
    }
    true
}

/// Returns whether the set has the scene, which may be any number.
fn is_in(set: Mask, scene: u8) -> bool
    ensures member { result ≡ has set.0 scene }
    ensures below { IsTrue result → scene < 64 }
{
    scene < 64 && set.has(scene as u32)
}

/// Returns whether the first list of scenes comes before the second in the order of the search, if both are shot from
/// the set. It compares the scenes that both begin with, and two ranks.
pub(crate) fn is_earlier<B: Bounds>(bounds: &B, set: Mask, first: &[u8], second: &[u8]) -> bool
    requires lies { LiesIn B.film set.0 }
    requires first { Remained B.film set.0 first.now }
    requires second { Remained B.film set.0 second.now }
    ensures { IsTrue result ↔ IsEarlier (rules_of B.kind B.film) set.0 first.now second.now }
{
    bounds.film().keeps_limits();
    let Some((other, after_other)) = second.split_first() else {
        return false;
    };
    let Some((one, after_one)) = first.split_first() else {
        return true;
    };
    if one == other {
        return is_earlier(bounds, set.without(*one as u32), after_one, after_other);
    }
    is_sooner(bounds, set, *one as u32, *other as u32)
}

/// Returns whether scene `s` of the set comes before scene `t`: by rank, or by number at equal ranks.
fn is_sooner<B: Bounds>(bounds: &B, set: Mask, s: u32, t: u32) -> bool
    requires lies { LiesIn B.film set.0 }
    requires one { has set.0 s ≡ true }
    requires other { has set.0 t ≡ true }
    ensures { IsTrue result ↔ IsSooner (rank (rules_of B.kind B.film) set.0) s t }
{
    let own = rank(bounds, set, s);
    let other = rank(bounds, set, t);
    own < other || own == other && s < t
}
