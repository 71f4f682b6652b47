//! The program `stripcheck`: a checker that accepts a plan (certificate) if its lines justify its bound.
#![tactic(auto)]

mod outcome;

use crate::outcome::run;
use std::process::ExitCode;
use strip_host::{Host, exit_code};

fn main(rt: HostRuntime) -> ExitCode {
    match Host::of(&rt) {
        Ok(mut host) => run(&rt, &mut host),
        Err(memory) => exit_code(Err(memory)),
    }
}
