// The initial state of a search by layers.
ghost use Rattle.std.specs.Prelude.{◌≡◌, ◌<◌, ◌≤◌, IfOk, false};
ghost use Rattle.strip_film.specs.Film.{all_scenes};
ghost use Rattle.strip_film.specs.Path.{IsComplete};
ghost use Rattle.strip_film.specs.Shown.{path_data};
ghost use Rattle.strip_bound.specs.Bounds.{bound};
ghost use Rattle.strip_lines.specs.Lines.{rules_of};
ghost use Rattle.strip_layers.specs.Begun.{HasBegun, LooksAhead};
ghost use Rattle.strip_layers.specs.Search.{AreTrue};
ghost use Rattle.strip_layers.specs.Shown.{search_data};

use crate::ask::Answers;
use crate::state::Search;
use std::alloc::Global;
use strip_film::{Path, on, step_with};
use strip_io::Memory;
use strip_rule::open_firsts_with;

/// Makes a search with a single line, that of all scenes, whose bound is the greater of `static_bound` and the
/// look-ahead.
pub(crate) fn begin<A: Answers>(
    alloc: Global,
    answers: &A,
    start: &Path,
    nodes: u32,
    static_bound: u64,
) -> Result<Search, Memory>
    requires start { IsComplete A.film (path_data start.now) }
    requires some { 1 ≤ nodes }
    requires bound { static_bound ≡ bound A.kind A.film (all_scenes A.film) }
    requires below { static_bound < (path_data start.now).paid }
    ensures found { IfOk result (λ search. AreTrue A.kind A.film search.found.entries) }
    ensures begun { IfOk result (λ search. HasBegun (rules_of A.kind A.film) (path_data start.now) nodes
        (search_data search)) }
{
    let film = answers.film();
    film.keeps_limits();
    let mut search = Search::new(alloc, start, nodes);
    search.add(film.all(), static_bound)?;
    search.raise(0, look_ahead(answers));
    Ok(search)
}

/// Returns the look-ahead: the least step plus static bound of the rest, over the open firsts of all scenes, in units
/// of money.
fn look_ahead<A: Answers>(answers: &A) -> u64
    ensures { LooksAhead (rules_of A.kind A.film) result }
{
    let film = answers.film();
    film.keeps_limits();
    let all = film.all();
    let on = on(film, all);
    let mut least = u64::MAX;
    for s in open_firsts_with(film, all, on).iter() {
        let behind = answers.bound(all.without(s));
        least = least.min(step_with(film, on, s).saturating_add(behind));
    }
    least
}
