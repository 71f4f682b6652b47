//! Plans (certificates) of an instance from the result of any search of its classes (groups of scenes with equal
//! casts): the cheaper of the found order and the rows' order, a proved bound, and the trimmed lines that prove it. The
//! rows' order can be priced without a search.
#![tactic(auto)]

mod options;
mod own;
mod plan;
mod pricing;
mod trimming;

pub use options::{SearchOptions, useful_tries};
pub use own::{Own, own_cost, own_order};
pub use plan::{Searched, plan_of};
pub use pricing::price;
pub use trimming::trimmed;
