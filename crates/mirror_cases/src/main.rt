//! Reads cases from its input, has a mirror run them over objects in memory, or a client behind mirrors that stand in a row before a list
//! server, and prints each that comes to something else than the case says.
#![tactic(auto)]

use case_runs::run_cases;
use programs::MirrorPrograms;
use std::process::ExitCode;

mod levels;
mod mirror;
mod programs;
mod row;

fn main(rt: HostRuntime) -> ExitCode {
    run_cases(&rt, &rt, &MirrorPrograms)
}
