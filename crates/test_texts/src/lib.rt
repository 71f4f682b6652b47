//! Tests of texts, files and sinks, for properties that no contract states. Calls succeed if memory is left, and
//! streams may be cut short, fail or stop in the middle. Texts worked by hand are read and written by calls that no
//! command makes. The whole program runs over files that never fail, and with several workers.
#![tactic(auto)]

#[cfg(test)]
mod canonical;
#[cfg(test)]
mod no_faults;
#[cfg(test)]
mod rows;
#[cfg(test)]
mod sending;
#[cfg(test)]
mod sharing;
#[cfg(test)]
mod streams;
#[cfg(test)]
mod transfers;
