//! The program over any reader, at the reader of `btb`: what `btb` does but for demos.
use model_program::{ModelProgram, Open, run_program};
use model_text::ModelTexts;
use std::alloc::AllocGlobal;
use std::process::Abort;
use std::test::Fail;
use std::thread::Threads;
use test_texts::wanted::TIE_TEXT;
use test_texts::{SAVED_TWO_JOBS, TIE, TWO_JOBS, sink_of, source_of, text_of, words_of};

/// With these words and this input the program ends so.
fn assert_told<R: Abort + AllocGlobal + Threads + Sync>(
    rt: &R,
    words: &str,
    input: &str,
    wanted: (u8, &str, &str),
) -> Result<(), Fail> {
    let alloc = rt.alloc();
    let program = ModelProgram {
        reader: &ModelTexts,
        gate: &Open,
    };
    let mut source = source_of(alloc, input.as_bytes(), &[])?;
    let mut out = sink_of(alloc, &[], &[])?;
    let mut notes = sink_of(alloc, &[], &[])?;
    let said = Ok(words_of(alloc, words)?);
    let status = run_program(rt, &program, said, &mut source, &mut out, &mut notes);
    assert!(rt; text_of(alloc, &out)?.as_str() == wanted.1, "{words}");
    assert!(rt; text_of(alloc, &notes)?.as_str() == wanted.2, "{words}");
    assert!(rt; status == wanted.0, "{words}");
    Ok(())
}

/// Words and an input, and with which status, text and note a program ends.
type Answer = (&'static str, &'static str, (u8, &'static str, &'static str));

const ANSWERS: [Answer; 7] = [
    ("run", TIE, (0, TIE_TEXT, "")),
    ("one", TIE, (0, TIE_TEXT, "")),
    ("demo 1", TIE, (2, "", "words: unknown command\n")),
    ("demo 257", TIE, (2, "", "words: unknown command\n")),
    ("run --nodes 0", TIE, (2, "", "words: bad value\n")),
    ("run", "", (3, "", "model: 3 Missing item 0\n")),
    ("resume", TIE, (8, "", "state: 2 BadLine line 1\n")),
];

#[test]
fn a_program_over_a_reader_has_all_commands_but_demo(rt: HostRuntime) -> Result<(), Fail> {
    for (words, input, wanted) in &ANSWERS {
        assert_told(&rt, words, input, *wanted)?;
    }
    Ok(())
}

#[test]
fn it_saves_a_simulation_and_goes_on_from_there(rt: HostRuntime) -> Result<(), Fail> {
    let told = "4.0 s take 1 0\n4.0 s wait 2 1\n";
    let saved = [told, SAVED_TWO_JOBS].concat(rt.alloc())?;
    assert_told(&rt, "save 1", TWO_JOBS, (0, saved.as_str(), ""))?;
    let rest =
        "6.0 s done 1 0\n6.1 out leave 1 2\n8.0 s done 2 0\n8.1 out leave 2 4\nend 10 events 6\n";
    assert_told(&rt, "resume", SAVED_TWO_JOBS, (0, rest, ""))
}
