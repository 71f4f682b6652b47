//! The interface of a program to the runtime: its command words, files and output, and its exit code.
#![tactic(auto)]

mod disk;
mod file;
mod host;
mod status;
mod words;

pub use disk::HostDisk;
pub use file::HostFile;
pub use host::Host;
pub use status::exit_code;
