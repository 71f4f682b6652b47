//! Input and output behind two traits: files by name (`Files`) and an output sink (`Sink`). Both have an implementation
//! of the host, one in memory with chosen failures, and one without failures. Failed reads and writes are counted.
//!
//! A law (`laws`) is a function that does nothing when it runs: its contract is a theorem that a caller obtains by
//! calling it.
#![tactic(auto)]

mod disk;
mod files;
mod host;
pub mod laws;
mod mem_files;
mod mem_sink;
mod no_fault;
mod open_file;
mod sink;
mod table;
mod tally;
mod transfer;

pub use disk::Disk;
pub use files::{Failed, Files, Memory};
pub use host::{HostFiles, HostSink};
pub use mem_files::MemFiles;
pub use mem_sink::MemSink;
pub use no_fault::{NoFaultFiles, NoFaultSink};
pub use sink::Sink;
pub use transfer::{LoadFault, load, send};
