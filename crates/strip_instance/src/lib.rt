//! Instance texts: CSV files of scenes, rates and pairs (precedence constraints). A text is read into an instance or
//! its first fault. The canonical text of an instance is written with the scenes in their own order or in another. A
//! law is a function that does nothing when it runs: its contract is a theorem that a caller obtains by calling it.
#![tactic(auto)]

mod arranging;
mod befores;
mod fault;
mod field;
mod header;
mod kind;
pub mod laws;
mod names;
mod rates;
mod reading;
mod row;
mod scenes;
mod told;
mod way;
mod writing;

pub use arranging::write_arranged;
pub use fault::InstanceFault;
pub use kind::RateKind;
pub use reading::read_instance;
pub use writing::write_instance;
