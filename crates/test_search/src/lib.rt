//! Tests of the parts of a search and of reductions (preprocessing to classes), for properties that no contract states,
//! by calls that no command makes. Expected values are worked by hand, come from an independent program, or are those of
//! a brute-force optimum: `cheapest_order` tries every order that keeps the pairs (precedence constraints).
#![tactic(auto)]

mod cheapest;

pub use cheapest::{Cheapest, cheapest_order};

#[cfg(test)]
mod agreement;
#[cfg(test)]
mod best;
#[cfg(test)]
mod classes;
#[cfg(test)]
mod films;
#[cfg(test)]
mod forgetful;
#[cfg(test)]
mod instances;
#[cfg(test)]
mod kept;
#[cfg(test)]
mod lists;
#[cfg(test)]
mod notes;
#[cfg(test)]
mod paths;
#[cfg(test)]
mod ranks;
#[cfg(test)]
mod reduced;
#[cfg(test)]
mod runs;
#[cfg(test)]
mod searched;
#[cfg(test)]
mod starts;
#[cfg(test)]
mod states;
#[cfg(test)]
mod tables;
#[cfg(test)]
mod tasks;
#[cfg(test)]
mod trims;
#[cfg(test)]
mod walks;
#[cfg(test)]
mod worlds;
