//! What a process makes of its words, its streams and its status.
use btb_program::run_process;
use std::alloc::{Alloc, AllocGlobal, Global};
use std::env::{Env, FillError};
use std::process::{Abort, ExitCode};
use std::thread::Threads;
use test_texts::wanted::TIE_TEXT;
use test_texts::{SHORT_TIE, TIE};

/// The runtime of a process with these words, of which the first one is the program's name.
#[derive(Drop)]
struct Said<'a, R> {
    rt: &'a R,
    words: &'a [&'a [u8]],
}

impl<'a, R: Threads> Threads for Said<'a, R> {}

impl<'a, R: AllocGlobal> Alloc for Said<'a, R> {
    type A = Global;

    fn alloc(&self) -> Global {
        self.rt.alloc()
    }
}

impl<'a, R> Env for Said<'a, R> {
    fn arg(&self, i: usize, buf: &mut [u8]) -> Result<usize, FillError> {
        let Some(word) = self.words.get(i) else {
            return Err(FillError::NotPresent);
        };
        if buf.len() < word.len() {
            return Err(FillError::TooLong);
        }
        for (place, byte) in buf.iter_mut().zip(word.iter()) {
            *place = *byte;
        }
        Ok(word.len())
    }

    fn var(&self, _name: &str, _buf: &mut [u8]) -> Result<usize, FillError> {
        Err(FillError::NotPresent)
    }

    fn var_at(&self, _i: usize, _buf: &mut [u8]) -> Result<usize, FillError> {
        Err(FillError::NotPresent)
    }
}

/// A process with these words, which reads this input, ends so.
fn assert_process<R: Abort + AllocGlobal + Threads + Sync>(
    rt: &R,
    words: &[&[u8]],
    input: &str,
    status: u8,
    text: &str,
    line: &str,
) {
    let said = Said { rt, words };
    let mut output = Vec::new(rt.alloc());
    let mut notes = Vec::new(rt.alloc());
    let ended = run_process(&said, input.as_bytes(), &mut output, &mut notes);
    assert!(rt; ended == ExitCode::from(status), "{status}");
    assert!(rt; output.as_slice() == text.as_bytes(), "{text}");
    assert!(rt; notes.as_slice() == line.as_bytes(), "{line}");
}

/// The words of a process, its input, and with which status, text and note it ends.
type Process = (
    &'static [&'static [u8]],
    &'static str,
    u8,
    &'static str,
    &'static str,
);

const PROCESSES: [Process; 7] = [
    (&[b"one", b"run"], TIE, 0, TIE_TEXT, ""),
    (
        &[b"btb", b"run"],
        SHORT_TIE,
        7,
        "0.0 p1 hop 5 2\n5.0 p0 hop 5 1\nlimit 2\n",
        "",
    ),
    (
        &[b"btb", b"one"],
        "format = 3",
        3,
        "",
        "model: 5 BadValue item 0\n",
    ),
    (
        &[b"btb", b"resume"],
        TIE,
        8,
        "",
        "state: 2 BadLine line 1\n",
    ),
    (&[b"btb"], TIE, 2, "", "words: no command\n"),
    // neither of them is text
    (&[b"btb", b"\xff"], TIE, 2, "", "words: bad value\n"),
    (&[b"btb", b"run", b"\xc3"], TIE, 2, "", "words: bad value\n"),
];

#[test]
fn the_words_behind_the_name_are_answered_to(rt: HostRuntime) {
    for (words, input, status, text, line) in &PROCESSES {
        assert_process(&rt, words, input, *status, text, line);
    }
}
