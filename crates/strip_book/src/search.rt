// The parameters of a search, as its book has them.
use std::marker::Model;
use strip_film::{Film, Path};
use strip_model::Kind;

/// The parameters of a search: the film, the kind of static bounds, the line budget, the start path's pay in units of
/// money, and the tasks.
#[derive(Drop)]
pub struct Search {
    pub film: Film,
    pub kind: Kind,
    pub nodes: u32,
    pub start: u64,
    pub tasks: Vec<Path>,
}

impl Model for Search {
    ghost use Rattle.std.specs.Prelude.{map};
    ghost use Rattle.strip_film.specs.Shown.{path_data};
    ghost use Rattle.strip_hand.specs.Search.{SearchData};

    ghost Value = { SearchData };

    ghost view = { λ s. record { film = s.film; kind = s.kind; nodes = s.nodes; start = s.start; tasks = map path_data s.tasks.items } };
}
