//! Plans (certificates): an order with its cost, a lower bound, and the lines that prove the bound. The text of a plan
//! is written and read here. A law is a function that does nothing when it runs: its contract is a theorem that a
//! caller obtains by calling it.
#![tactic(auto)]

mod fault;
mod field;
mod head;
mod head_rows;
pub mod laws;
mod line;
mod line_rows;
mod order;
mod plan;
mod reading;
mod row;
mod sending;
mod told;

pub use fault::PlanFault;
pub use head::{head_text, status_word};
pub use line::{LineText, line_text};
pub use plan::{Plan, Status};
pub use reading::read_plan;
pub use sending::send_lines;
