// What a search is run with.
use crate::told::Told;
use std::alloc::Global;
use strip_hand::Gate;
use strip_solve::SearchOptions;

/// What a search of an instance's classes is run with: its memory, its options, the cost of the rows' order without the
/// cost set apart, and the gate that gets reports of it.
#[derive(Drop)]
pub(crate) struct Setup<'g, G: Gate> {
    pub alloc: Global,
    pub options: SearchOptions,
    pub own: u64,
    pub gate: Told<'g, G>,
}

/// The workers of a search, 2 to 64, each in a thread of the runtime.
#[derive(Drop)]
pub(crate) struct Team<'r, R> {
    pub rt: &'r R,
    pub workers: u32,
}
