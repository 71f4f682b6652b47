// One layer backward: the lines of its open sets are raised.
ghost use Rattle.std.specs.Prelude.{◌≡◌, ◌≢◌, ◌+◌, ◌<◌, ◌≤◌, ◌^◌, ℕ, List, true, length, max};
ghost use Rattle.strip_mask.specs.Set.{has, without};
ghost use Rattle.strip_film.specs.Film.{LiesIn};
ghost use Rattle.strip_film.specs.Path.{PathData};
ghost use Rattle.strip_film.specs.Shoot.{step_cost};
ghost use Rattle.strip_lines.specs.Lines.{line_at, rules_of, with_raised};
ghost use Rattle.strip_rule.specs.Rule.{open_firsts};
ghost use Rattle.strip_layers.specs.Layer.{value_in};
ghost use Rattle.strip_layers.specs.Raised.{IsLeastOver, IsRaised, MayRaiseLayer};
ghost use Rattle.strip_layers.specs.Search.{IsSearch, Rises};
ghost use Rattle.strip_layers.specs.Shown.{search_data};
ghost use Rattle.strip_layers.specs.Walked.{IsLayer};

use crate::ask::Answers;
use crate::layer::{Layer, Standing};
use crate::state::Search;
use strip_film::{Film, on, step_with};
use strip_mask::Mask;
use strip_rule::open_firsts_with;

/// Raises the line of each open set of a layer to the least step plus known bound of the rest, over its open firsts.
/// The rest is a set of the layer below.
pub(crate) fn raise_layer<A: Answers>(
    answers: &A,
    search: &mut Search,
    layer: Layer,
    below: &Layer,
) -> Layer
    requires { (limit : ℕ) × (paths : List PathData) × MayRaiseLayer (rules_of A.kind A.film) (search_data search.old)
        limit paths layer.sets.keys layer.standings.items below.now.sets.keys below.now.standings.items }
    ensures found { search.new.found.entries ≡ search.old.found.entries }
    ensures raised { (limit : ℕ) (paths : List PathData) → MayRaiseLayer (rules_of A.kind A.film)
        (search_data search.old) limit paths layer.sets.keys layer.standings.items below.now.sets.keys below.now.standings.items
        → IsSearch (rules_of A.kind A.film) (search_data search.new)
        × Rises (search_data search.old) (search_data search.new)
        × IsLayer (rules_of A.kind A.film) (search_data search.new) limit paths
        result.sets.keys result.standings.items }
{
    let Layer {
        sets,
        mut standings,
    } = layer;
    for number in 0..standings.len() {
        if let Some(place) = standings[number].place {
            let value = raise_line(answers, search, place, below);
            standings[number] = Standing {
                value,
                place: Some(place),
            };
        }
    }
    Layer { sets, standings }
}

/// Raises the line at an index, and returns the bound that it then has.
fn raise_line<A: Answers>(answers: &A, search: &mut Search, place: usize, below: &Layer) -> u64
    requires place { place < length (search_data search.old).lines }
    requires lies { LiesIn A.film (line_at (search_data search.old).lines place).set }
    ensures found { search.new.found.entries ≡ search.old.found.entries }
    ensures raised { IsRaised A.film below.now.sets.keys below.now.standings.items (search_data search.old) place
        result (search_data search.new) }
{
    let set = search.sheet.set_at(place);
    let least = least_over(answers.film(), set, below);
    search.raise(place, least)
}

/// Returns the least step plus known bound of the rest, over the open firsts of a set, in units of money.
fn least_over(film: &Film, set: Mask, below: &Layer) -> u64
    requires { LiesIn film.now set.0 }
    ensures { IsLeastOver film.now below.now.sets.keys below.now.standings.items set.0 result }
{
    film.keeps_limits();
    let on = on(film, set);
    let mut least = u64::MAX;
    for s in open_firsts_with(film, set, on).iter() {
        let behind = below.value_of(set.without(s));
        least = least.min(step_with(film, on, s).saturating_add(behind));
    }
    least
}
