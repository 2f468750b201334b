//! Reads cases from its input, has the client, the list server and what makes journals run them over objects in memory, and prints
//! each that comes to something else than the case says.
#![tactic(auto)]

use case_runs::run_cases;
use programs::StoredPrograms;
use std::process::ExitCode;

mod programs;

fn main(rt: HostRuntime) -> ExitCode {
    run_cases(&rt, &rt, &StoredPrograms)
}
