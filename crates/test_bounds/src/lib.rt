//! Tests of static bounds, for properties that no contract states, by calls that no command makes. They cover bounds
//! and open firsts (successors that the dominance rule lets through) of small films, worked by hand. Values of a group
//! and its newcomers, and bounds with arrivals, are compared with results of an independent program. A shared store of
//! bounds is tested with several threads.
#![tactic(auto)]

#[cfg(test)]
mod cases;
#[cfg(test)]
mod companies;
#[cfg(test)]
mod films;
#[cfg(test)]
mod finished;
#[cfg(test)]
mod newcomers;
#[cfg(test)]
mod rules;
#[cfg(test)]
mod sets;
#[cfg(test)]
mod small;
#[cfg(test)]
mod stages;
#[cfg(test)]
mod stores;
#[cfg(test)]
mod values;
