// One layer forward: its sets are bounded, and the open ones lead to the next layer.
ghost use Rattle.std.specs.Prelude.{◌≡◌, ◌≢◌, ℕ, suc, None, Some, All, fold, length, map, ◌≤◌, IfOk};
ghost use Rattle.strip_model.specs.declared.kind.Kind.{Kind};
ghost use Rattle.strip_model.specs.Film.{FilmData};
ghost use Rattle.strip_film.specs.Film.{LiesIn};
ghost use Rattle.strip_film.specs.Path.{IsPath};
ghost use Rattle.strip_film.specs.Shown.{path_data};
ghost use Rattle.strip_lines.specs.Lines.{rules_of};
ghost use Rattle.strip_paths.specs.Shown.{paths_of};
ghost use Rattle.strip_paths.specs.Paths.{paths_after, with_path};
ghost use Rattle.strip_layers.specs.Search.{AreTrue, IsSearch};
ghost use Rattle.strip_layers.specs.Walked.{AreAsksFor, AreLooked, GoesOn, IsLevel, Stands};
ghost use Rattle.strip_layers.specs.Shown.{search_data};

use crate::ask::{Answers, Ask};
use crate::layer::{Layer, Standing};
use crate::state::Search;
use std::alloc::Global;
use strip_film::Path;
use strip_io::Memory;
use strip_paths::{PathsBySet, put_paths_after};

/// Requests a bound for the remaining set of each path, all at once. A value reaches the limit if the set's static
/// bound or line does.
pub(crate) fn ask_all<A: Answers>(
    alloc: Global,
    answers: &A,
    search: &mut Search,
    paths: &PathsBySet,
    limit: u64,
) -> Result<Vec<Ask>, Memory>
    requires ready { A.is_ready answers.now }
    requires found { AreTrue A.kind A.film search.old.found.entries }
    requires lie { All (λ path. LiesIn A.film path.rest) (paths_of paths.now) }
    ensures found { AreTrue A.kind A.film search.new.found.entries }
    ensures search { search_data search.new ≡ search_data search.old }
    ensures looked { IfOk result (λ asks. AreLooked A.kind A.film
        (search_data search.old).lines limit (paths_of paths.now) asks.items) }
{
    let mut asks = asks_for(alloc, search, paths.paths(), limit)?;
    answers.answer(&mut asks)?;
    search.remember(&asks)?;
    Ok(asks)
}

/// Makes the requests of the paths, in their order.
fn asks_for(alloc: Global, search: &Search, paths: &[Path], limit: u64) -> Result<Vec<Ask>, Memory>
    ensures { (kind : Kind) (film : FilmData) → AreTrue kind film search.now.found.entries
        → IfOk result (λ asks. AreAsksFor kind film (search_data search.now).lines limit (map path_data paths.now) asks.items) }
{
    let mut asks = Vec::with_capacity(alloc, paths.len())?;
    for path in paths {
        asks.push(search.ask_for(path, limit))?;
    }
    Ok(asks)
}

/// Closes or opens the remaining set of each path, and returns the layer with the paths that continue those of open
/// sets.
pub(crate) fn go_on<A: Answers>(
    alloc: Global,
    answers: &A,
    search: &mut Search,
    paths: PathsBySet,
    asks: &[Ask],
) -> Result<(Layer, PathsBySet), Memory>
    requires search { IsSearch (rules_of A.kind A.film) (search_data search.old) }
    requires level { (left : ℕ) × IsLevel (rules_of A.kind A.film) (suc left) (paths_of paths) }
    requires looked { (limit : ℕ) × (limit ≤ (search_data search.old).goal) × AreLooked A.kind A.film
        (search_data search.old).lines limit (paths_of paths) asks.now }
    ensures found { search.new.found.entries ≡ search.old.found.entries }
    ensures goes_on { (left limit : ℕ) → limit ≤ (search_data search.old).goal
        → IsLevel (rules_of A.kind A.film) (suc left) (paths_of paths)
        → AreLooked A.kind A.film (search_data search.old).lines limit (paths_of paths) asks.now
        → IfOk result (λ gone. GoesOn (rules_of A.kind A.film) (search_data search.old) left limit
        (paths_of paths) gone.0.sets.keys gone.0.standings.items (paths_of gone.1) (search_data search.new)) }
{
    answers.film().keeps_limits();
    let mut standings = Vec::with_capacity(alloc, asks.len())?;
    let mut next = PathsBySet::new(alloc);
    for number in 0..asks.len() {
        let path = &paths.paths()[number];
        let ask = &asks[number];
        let standing = look_at(answers, search, path, ask, &mut next)?;
        standings.push(standing)?;
    }
    let layer = Layer {
        sets: paths.into_sets(),
        standings,
    };
    Ok((layer, next))
}

/// Closes or opens the remaining set of a path. If the set is open, the paths that continue this path are put into the
/// next layer.
fn look_at<A: Answers>(
    answers: &A,
    search: &mut Search,
    path: &Path,
    ask: &Ask,
    next: &mut PathsBySet,
) -> Result<Standing, Memory>
    requires { IsPath A.film (path_data path.now) }
    ensures found { search.new.found.entries ≡ search.old.found.entries }
    ensures stands { IfOk result (λ standing. Stands (search_data search.old) (path_data path.now).rest ask.now standing
        (search_data search.new)) }
    ensures closed { IfOk result (λ standing. standing.place ≡ None → paths_of next.new ≡ paths_of next.old) }
    ensures leads { IfOk result (λ standing. standing.place ≢ None
        → paths_of next.new ≡ fold with_path (paths_of next.old) (paths_after A.film (path_data path.now))) }
{
    let standing = search.stand(path.rest(), ask)?;
    if standing.place.is_some() {
        put_paths_after(answers.film(), path, next)?;
    }
    Ok(standing)
}
