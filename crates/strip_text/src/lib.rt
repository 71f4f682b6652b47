//! Texts of rows: CSV read and written a row at a time, decimal numbers, ordered checks, and the fields of faults. A
//! law is a function that does nothing when it runs: its contract is a theorem that a caller obtains by calling it.
#![tactic(auto)]

mod field;
pub mod laws;
mod number;
mod row;
mod rows;
mod text;
mod told;

pub use number::number_of;
pub use row::Row;
pub use rows::Rows;
pub use text::Text;
pub use told::Told;
