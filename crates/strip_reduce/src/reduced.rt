// Films of classes.
ghost use Rattle.std.specs.Prelude.{◌≡◌, ◌*◌, ◌≤◌, length};

use strip_film::Film;

/// Maximum number of classes after a reduction: the maximum number of a film's scenes.
pub const MAX_CLASSES: usize = 64;

/// The result of a reduction: a film of classes, the scenes of each class, and the cost set apart.
#[derive(Debug, Drop)]
pub struct Reduced {
    /// The film whose scenes are the classes.
    pub film: Film,
    /// For each class the scenes of the instance that were joined in it, in the order in which they are shot.
    pub classes: Vec<Vec<u16>>,
    /// The cost set apart, in units of money: in every order it is paid in addition to the film's pay.
    pub apart: u64,
    pub ghost members: { length classes.items ≡ length film.casts },
    pub ghost small: { apart ≤ 19800 * 64_000_000_000 },
}
