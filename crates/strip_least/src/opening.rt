// Making the words and their first pass.
ghost use Rattle.std.specs.Prelude.{IfOk};
ghost use Rattle.strip_film.specs.Path.{IsComplete};
ghost use Rattle.strip_film.specs.Shown.{path_data};
ghost use Rattle.strip_least.specs.Pass.{IsFirst};

use crate::course::Course;
use crate::least::Least;
use crate::pass::LeastPass;
use atomic_table::Table;
use std::alloc::Global;
use strip_film::{Film, Path};
use strip_io::Memory;

impl Least {
    /// Makes the words of a search of `parts` parts that starts with this complete path, and their first pass. The pass
    /// has the full weight, 2^32, and the start path as its best. It fails only if memory runs out. No call of a pass
    /// allocates memory.
    pub fn new(
        alloc: Global,
        film: &Film,
        start: &Path,
        parts: u32,
    ) -> Result<(Least, LeastPass), Memory>
        requires { IsComplete film.now (path_data start.now) }
        ensures { IfOk result (λ made. IsFirst film.now (path_data start.now) parts made.0 made.1) }
    {
        film.keeps_limits();
        let paid = start.paid();
        // The rule refers to its own copy of the film, so that the words borrow none.
        let course = Course {
            film: film.copy()?,
            start: paid,
            parts,
        };
        let (table, seat) = Table::of_words(alloc, &[paid, 0], &course)?;
        let pass = LeastPass {
            seat,
            best: *start,
            has_ended: false,
        };
        Ok((Least { table, parts }, pass))
    }
}
