//! Reads cases from its input, has a proxy run them over objects in memory, and prints each that comes to something else than the case says.
#![tactic(auto)]

use case_runs::run_cases;
use programs::ProxyPrograms;
use std::process::ExitCode;

mod input;
mod programs;
mod proxy;

fn main(rt: HostRuntime) -> ExitCode {
    run_cases(&rt, &rt, &ProxyPrograms)
}
