//! A proved simulator of shops: reads a model from standard input and prints what happens in it.
#![tactic(auto)]

use std::process::ExitCode;

fn main(rt: HostRuntime) -> ExitCode {
    shop_program::run_process(&rt, rt.stdin(), rt.stdout(), rt.stderr())
}
