//! The program that runs token rings: everything that `btb` does but `demo`.
#![tactic(auto)]

use own_text::RingTexts;
use std::process::ExitCode;

fn main(rt: HostRuntime) -> ExitCode {
    model_program::run_process(&rt, &RingTexts, rt.stdin(), rt.stdout(), rt.stderr())
}
