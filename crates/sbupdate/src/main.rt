//! Keeps a client's threat lists up to date.
#![tactic(auto)]

use client_main::run_program;
use std::process::ExitCode;

fn main(rt: HostRuntime) -> ExitCode {
    run_program(&rt, &rt, "sbupdate")
}
