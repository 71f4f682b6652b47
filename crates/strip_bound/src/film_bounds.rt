// The static bounds of a film.
ghost use Rattle.std.specs.Prelude.{◌≡◌};
ghost use Rattle.strip_bound.specs.Tables.{AreTables};

use crate::bounded::Bounded;
use crate::bounds::{static_bound, static_reach};
use crate::source::Bounds;
use crate::tables::BoundTables;
use std::marker::PhantomData;
use strip_arrivals::Room;
use strip_film::Film;
use strip_mask::Mask;
use strip_model::Kind;

/// The static bounds of a film, each computed when it is asked for.
#[derive(Drop)]
pub struct FilmBounds<'f, N: Bounded> {
    film: &'f Film,
    tables: &'f BoundTables,
    kind: Kind,
    of: PhantomData<N>,
    pub ghost film_is: { film.now ≡ N.film },
    pub ghost kind_is: { kind ≡ N.kind },
    pub ghost are_tables: { AreTables film.now tables.now },
}

impl<'f, N: Bounded> FilmBounds<'f, N> {
    /// Makes the bounds of the film, of this kind, from its tables.
    pub fn new(film: &'f Film, tables: &'f BoundTables, kind: Kind) -> FilmBounds<'f, N>
        requires film { film.now ≡ N.film }
        requires kind { kind ≡ N.kind }
        requires tables { AreTables film.now tables.now }
    {
        FilmBounds {
            film,
            tables,
            kind,
            of: PhantomData,
        }
    }
}

impl<'f, N: Bounded> Bounds for FilmBounds<'f, N> {
    ghost film = { N.film };

    ghost kind = { N.kind };

    fn film(&self) -> &Film {
        self.film
    }

    fn kind(&self) -> Kind {
        self.kind
    }

    fn reach(&self, q: Mask, need: u64, room: &mut Room) -> u64 {
        static_reach(self.film, self.tables, self.kind, q, need, room)
    }

    fn whole(&self, q: Mask) -> u64 {
        static_bound(self.film, self.tables, self.kind, q)
    }
}
