// The film and kind to which bounds belong.
use std::marker::Brand;

/// A type that names a film and a kind of static bound. It lets the invariants of sources of bounds, and of locks,
/// refer to them.
pub trait Bounded {
    ghost use Rattle.strip_model.specs.declared.kind.Kind.{Kind};
    ghost use Rattle.strip_model.specs.Film.{FilmData};

    ghost film: { FilmData };

    ghost kind: { Kind };
}

impl Bounded for Brand {
    ghost use Rattle.strip_model.specs.declared.kind.Kind.TheVariants.{Plain};
    ghost use Rattle.strip_bound.specs.Bounded.{no_film};

    ghost film = { no_film };

    ghost kind = { Plain };
}
