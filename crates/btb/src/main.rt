//! A proved discrete-event simulator: reads a model from standard input and prints what happens in it.
#![tactic(auto)]

use std::process::ExitCode;

fn main(rt: HostRuntime) -> ExitCode {
    btb_program::run_process(&rt, rt.stdin(), rt.stdout(), rt.stderr())
}
