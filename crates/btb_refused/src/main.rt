//! The same program as `btb` over what it refuses. Its notes go to standard output, and its text nowhere. First come words
//! that are refused, whose status is told and which leave the input unread; then the model there, by the words of the process.
#![tactic(auto)]

use std::alloc::{AllocError, Global};
use std::io::{self, ErrorKind};
use std::process::ExitCode;

/// Words with an option that is none.
fn refused_words(alloc: Global) -> Result<Vec<String>, AllocError> {
    let mut words = Vec::new(alloc);
    for word in ["run", "--node", "2"] {
        words.push(String::from_str(alloc, word)?)?;
    }
    Ok(words)
}

fn main(rt: HostRuntime) -> ExitCode {
    let words = refused_words(rt.alloc()).map_err(|_| ErrorKind::OutOfMemory);
    let ended = btb_program::run_streams(&rt, words, rt.stdin(), io::sink(), rt.stdout());
    let _ = println!(rt; "status {}", ended.status);
    btb_program::run_process(&rt, rt.stdin(), io::sink(), rt.stdout())
}
