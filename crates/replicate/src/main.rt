//! A proved program for many replications: reads a model from standard input, runs it under many seeds, and prints a table.
#![tactic(auto)]

use std::process::ExitCode;

fn main(rt: HostRuntime) -> ExitCode {
    replicate_program::run_process(&rt, rt.stdin(), rt.stdout(), rt.stderr())
}
