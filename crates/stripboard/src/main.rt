//! The program `stripboard`: an exact solver for talent scheduling. It prints a cheapest shooting order of a film, or
//! its best order with a proved lower bound.
#![tactic(auto)]

mod asking;
mod outcome;

use crate::outcome::run;
use std::process::ExitCode;
use strip_host::{Host, exit_code};

fn main(rt: HostRuntime) -> ExitCode {
    match Host::of(&rt) {
        Ok(mut host) => run(&rt, &mut host),
        Err(memory) => exit_code(Err(memory)),
    }
}
