// The whole search by layers.
ghost use Rattle.std.specs.Prelude.{◌≡◌, ◌<◌, ◌≤◌, ℕ, IfOk, OnOk, false, length};
ghost use Rattle.strip_model.specs.declared.kind.Kind.{Kind};
ghost use Rattle.strip_model.specs.Film.{FilmData};
ghost use Rattle.strip_film.specs.Film.{IsFilm};
ghost use Rattle.strip_film.specs.Path.{IsComplete, PathData};
ghost use Rattle.strip_film.specs.Shown.{path_data};
ghost use Rattle.strip_lines.specs.Lines.{rules_of};
ghost use Rattle.strip_layers.specs.Layered.{HasEnded, IsEnd, IsLayered};
ghost use Rattle.strip_layers.specs.Search.{AreTrue, IsSearch, Rises};
ghost use Rattle.strip_layers.specs.Shown.{layered_data, search_data};

use crate::ask::Answers;
use crate::beginning::begin;
use crate::found::Found;
use crate::layered::Layered;
use crate::limits::{Limits, Reached, Watch};
use crate::state::Search;
use crate::walking::walk_whole;
use indexmap::IndexMap;
use std::alloc::Global;
use strip_film::Path;
use strip_film::laws::{kept_orders_are_ready_lists, steps_add_up_to_the_pay};
use strip_io::Memory;
use strip_lines::laws::lines_of_different_sets_are_few;

/// Searches for a cheapest order of the film, from a complete path, with at most `nodes` lines. The cost limits rise from
/// the look-ahead of all scenes to the best path's pay, at first in `steps` equal steps. A walk that needs more than
/// `nodes` lines is undone, and the step halved. After two halvings a walk may use up the lines, and this ends the
/// search.
///
/// It ends when the bound of all scenes is the best path's pay, or when a line is needed and there are `nodes`. No set
/// has two lines, so there are no more lines than sets. It takes some 150 bytes for each set that it looks at.
pub fn search_by_layers<A: Answers, W: Watch>(
    alloc: Global,
    answers: &A,
    watch: &W,
    start: &Path,
    steps: u32,
    nodes: u32,
) -> Result<Layered, Memory>
    requires ready { A.is_ready answers.now }
    requires start { IsComplete A.film (path_data start.now) }
    requires some { 1 ≤ nodes }
    ensures layered { IfOk result (λ layered. IsLayered A.kind A.film (path_data start.now) nodes
        (layered_data layered)) }
    ensures found { IfOk result (λ layered. AreTrue A.kind A.film layered.found.values.entries) }
{
    kept_orders_are_ready_lists();
    steps_add_up_to_the_pay();
    lines_of_different_sets_are_few();
    let film = answers.film();
    film.keeps_limits();
    let bound = answers.bound(film.all());
    if bound >= start.paid() {
        return Ok(Layered {
            lines: Vec::new(alloc),
            bound,
            best: *start,
            is_spent: false,
            found: Found {
                values: IndexMap::new(alloc),
            },
        });
    }
    let mut search = begin(alloc, answers, start, nodes, bound)?;
    rise(alloc, answers, watch, &mut search, steps)?;
    Ok(end(search))
}

/// Walks the film below rising limits, until the bound of all scenes is the best path's pay or the lines are used up.
fn rise<A: Answers, W: Watch>(
    alloc: Global,
    answers: &A,
    watch: &W,
    search: &mut Search,
    steps: u32,
) -> Result<(), Memory>
    requires ready { A.is_ready answers.now }
    requires found { AreTrue A.kind A.film search.old.found.entries }
    requires search { IsSearch (rules_of A.kind A.film) (search_data search.old) }
    requires unspent { (search_data search.old).spent ≡ false }
    ensures found { OnOk result (AreTrue A.kind A.film search.new.found.entries) }
    ensures search { OnOk result (IsSearch (rules_of A.kind A.film) (search_data search.new)) }
    ensures rises { OnOk result (Rises (search_data search.old) (search_data search.new)) }
    ensures ended { OnOk result (HasEnded (search_data search.new)) }
{
    let mut limits = Limits::new(search.proved(), search.goal, steps);
    while search.proved() < search.best.paid() {
        let walk = limits.next(search.proved(), search.best.paid());
        if walk_whole(alloc, answers, search, walk)? {
            tell(watch, search, &limits);
            if search.spent {
                return Ok(());
            }
        } else {
            limits.halve();
        }
    }
    Ok(())
}

/// Reports that a limit was reached.
fn tell<W: Watch>(watch: &W, search: &Search, limits: &Limits)
    requires { 0 < length (search_data search.now).lines }
{
    watch.reached(&Reached {
        number: limits.number(search.proved()),
        steps: limits.steps(),
        cost: search.best.paid(),
        bound: search.proved(),
        lines: search.sheet.len(),
        nodes: search.nodes,
    });
}

/// Makes the result of the search.
fn end(search: Search) -> Layered
    requires { 0 < length (search_data search).lines }
    ensures ended { IsEnd (search_data search) (layered_data result) }
    ensures found { result.found.values.entries ≡ search.found.entries }
{
    let bound = search.proved();
    let is_spent = search.spent && bound < search.best.paid();
    let Search {
        sheet,
        best,
        found,
        ..
    } = search;
    Layered {
        lines: sheet.into_lines(),
        bound,
        best,
        is_spent,
        found: Found { values: found },
    }
}
