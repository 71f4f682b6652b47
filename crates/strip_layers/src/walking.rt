// One walk below a limit, layer by layer.
ghost use Rattle.std.specs.Prelude.{◌≡◌, ◌<◌, ◌≤◌, ℕ, All, IfOk, false};
ghost use Rattle.strip_film.specs.Path.{IsComplete};
ghost use Rattle.strip_film.specs.Rules.{Rules};
ghost use Rattle.strip_lines.specs.Lines.{rules_of};
ghost use Rattle.strip_paths.specs.Shown.{paths_of};
ghost use Rattle.strip_layers.specs.Search.{AreTrue, IsSearch, Rises};
ghost use Rattle.strip_layers.specs.Shown.{search_data};
ghost use Rattle.strip_layers.specs.Walked.{HasWalked, IsLayer, IsLevel, WalksLayer};

use crate::ask::Answers;
use crate::layer::Layer;
use crate::limits::Walk;
use crate::looking::{ask_all, go_on};
use crate::raising::raise_layer;
use crate::state::Search;
use std::alloc::Global;
use strip_film::Path;
use strip_io::Memory;
use strip_paths::PathsBySet;

/// Walks the film below a limit, and returns whether it reached the end. If the walk needs more lines than `nodes` and
/// may not use them up, it is undone, except for the static bounds found.
pub(crate) fn walk_whole<A: Answers>(
    alloc: Global,
    answers: &A,
    search: &mut Search,
    walk: Walk,
) -> Result<bool, Memory>
    requires ready { A.is_ready answers.now }
    requires found { AreTrue A.kind A.film search.old.found.entries }
    requires search { IsSearch (rules_of A.kind A.film) (search_data search.old) }
    requires limit { walk.limit ≤ (search_data search.old).goal }
    requires unspent { (search_data search.old).spent ≡ false }
    ensures found { AreTrue A.kind A.film search.new.found.entries }
    ensures walked { IfOk result (λ walked. HasWalked (rules_of A.kind A.film) (search_data search.old)
        walk.may_spend walk.limit walked (search_data search.new)) }
{
    let film = answers.film();
    film.keeps_limits();
    let count = search.sheet.len();
    let mut whole = PathsBySet::new(alloc);
    whole.put(&Path::start(film))?;
    let layer = walk_layer(alloc, answers, search, whole, film.scenes(), walk)?;
    if layer.is_none() {
        search.take_back(count);
        return Ok(false);
    }
    Ok(true)
}

/// Walks on from the paths of a layer, each with `left` remaining scenes: forward to the layers below, then backward.
/// At the end each open set of the layer has a line that its children justify. It returns none if the walk needs more
/// lines than `nodes` and may not use them up.
fn walk_layer<A: Answers>(
    alloc: Global,
    answers: &A,
    search: &mut Search,
    paths: PathsBySet,
    left: usize,
    walk: Walk,
) -> Result<Option<Layer>, Memory>
    requires ready { A.is_ready answers.now }
    requires found { AreTrue A.kind A.film search.old.found.entries }
    requires search { IsSearch (rules_of A.kind A.film) (search_data search.old) }
    requires level { IsLevel (rules_of A.kind A.film) left (paths_of paths) }
    requires limit { walk.limit ≤ (search_data search.old).goal }
    ensures found { AreTrue A.kind A.film search.new.found.entries }
    ensures walked { IfOk result (λ layer. WalksLayer (rules_of A.kind A.film) (search_data search.old)
        walk.may_spend walk.limit (paths_of paths) layer (search_data search.new)) }
{
    answers.film().keeps_limits();
    if left == 0 {
        return Ok(Some(meet_all(alloc, search, &paths)));
    }
    let asks = ask_all(alloc, answers, search, &paths, walk.limit)?;
    let (layer, next) = go_on(alloc, answers, search, paths, &asks)?;
    if search.spent && !walk.may_spend {
        return Ok(None);
    }
    match walk_layer(alloc, answers, search, next, left - 1, walk)? {
        None => Ok(None),
        Some(below) => Ok(Some(raise_layer(answers, search, layer, &below))),
    }
}

/// Keeps the cheapest of these complete paths, if it pays less than the best one. It returns a layer without sets,
/// since no scenes remain.
fn meet_all(alloc: Global, search: &mut Search, paths: &PathsBySet) -> Layer
    ensures found { search.new.found.entries ≡ search.old.found.entries }
    ensures met { (rules : Rules) (limit : ℕ) → IsSearch rules (search_data search.old)
        → All (IsComplete rules.film) (paths_of paths.now)
        → IsSearch rules (search_data search.new) × Rises (search_data search.old) (search_data search.new)
        × IsLayer rules (search_data search.new) limit (paths_of paths.now) result.sets.keys result.standings.items }
{
    for path in paths.paths() {
        search.meet(path);
    }
    Layer::none(alloc)
}
