// A hub's record of a probe.
use strip_film::Probe;

/// A probe: the set looked up, and the answer.
#[derive(Clone, Copy, Debug)]
pub struct Asked {
    pub(crate) set: u64,
    pub(crate) answer: Probe,
}
