// The source that the workers of a search share.
use std::marker::Brand;

/// A type that names the source from which all workers of a search have their parts. So the parts that each of them
/// took can be gathered.
pub trait Rooted {
    ghost use Rattle.strip_crew.specs.Source.{SourceHome};

    ghost home: { SourceHome };
}

impl Rooted for Brand {
    ghost use Rattle.strip_crew.specs.Source.{no_home};

    ghost home = { no_home };
}
