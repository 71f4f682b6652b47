//! Tests of the shared state of a parallel search, for what several workers are told who act at once, by calls that no
//! command makes.
#![tactic(auto)]

#[cfg(test)]
mod book;
#[cfg(test)]
mod hubs;
#[cfg(test)]
mod least;
#[cfg(test)]
mod progress;
#[cfg(test)]
mod queues;
#[cfg(test)]
mod races;
#[cfg(test)]
mod team;
