// What is lent to a race.
use std::alloc::Global;
use strip_hand::Limits;

/// What a race (parallel search) is run with. It is lent to each function of the race, and to the workers' threads.
#[derive(Drop)]
pub struct Race<'a, R, B, G> {
    /// The runtime, which starts the threads and waits.
    pub rt: &'a R,
    pub alloc: Global,
    /// The static bounds. They name the film and the kind.
    pub bounds: &'a B,
    /// The observer, to which the workers report.
    pub gate: &'a G,
    pub limits: Limits,
    /// Whether each worker has a queue of tasks, and steals from the others when his own is empty. Otherwise all take
    /// tasks from a common counter.
    pub steal: bool,
}
