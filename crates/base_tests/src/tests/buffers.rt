//! Records that are under way.
use super::key;
use model_core::{Note, Part, RecordBuffer};
use std::alloc::Global;
use std::test::Fail;

/// Whether a buffer shows this number.
fn shows(alloc: Global, buffer: &RecordBuffer, number: &str) -> Result<bool, Fail> {
    let shown = format!(in alloc; "{buffer:?}")?;
    Ok(shown.contains(number))
}

#[test]
fn a_buffer_that_is_cleared_keeps_nothing_that_was_told(rt: HostRuntime) -> Result<(), Fail> {
    let alloc = rt.alloc();
    let told = Part {
        word: 1,
        a: 4_242_424_242,
        b: 0,
    };
    let mut buffer = RecordBuffer::new(alloc);
    buffer.push(&key(1, 0, 2), &Note::of(told))?;
    assert!(rt; shows(alloc, &buffer, "4242424242")?);
    buffer.clear();
    assert!(rt; buffer.is_empty());
    assert!(rt; !shows(alloc, &buffer, "4242424242")?);
    Ok(())
}
