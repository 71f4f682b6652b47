//! The program `stripboard_cases`: it runs cases (tests of the programs), and prints which of them differ from their
//! expected results. A case is read from a text, which has runs of the programs and the expected results of each run.
#![tactic(auto)]

mod blocks;
mod case;
mod differing;
mod escapes;
mod fault;
mod files;
mod judging;
mod lines;
mod making;
mod numbers;
mod outcome;
mod reading;
mod rows;
mod running;
mod words;

use crate::outcome::run;
use std::process::ExitCode;
use strip_host::{Host, exit_code};

fn main(rt: HostRuntime) -> ExitCode {
    match Host::of(&rt) {
        Ok(mut host) => run(&rt, &mut host),
        Err(memory) => exit_code(Err(memory)),
    }
}
