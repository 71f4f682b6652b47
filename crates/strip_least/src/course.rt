// The parameters of a search.
use strip_film::Film;

/// The parameters of a search: the film, the start path's pay in units of money, and the number of parts.
#[derive(Drop)]
pub struct Course {
    pub film: Film,
    pub start: u64,
    pub parts: u32,
}
