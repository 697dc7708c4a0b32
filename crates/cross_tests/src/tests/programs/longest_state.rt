//! A saved state that is as long as one may be, and one that is a byte longer.
use super::ended_by;
use model_program::Open;
use sim_io::MemSource;
use std::alloc::Global;
use std::test::Fail;
use test_texts::{TWO_JOBS, sink_of};

/// How many bytes the text of a state has at most.
const MOST: usize = 67_108_864;

/// How many events each of two objects has sent.
const SENT: u32 = 349_500;

/// The state of a station with two jobs after 50,000 events, up to its model. All that its objects have sent is pending, in
/// long lines, and comes after the end.
fn crowded(alloc: Global) -> Result<String, Fail> {
    let mut text = format!(in alloc;
        "state 1\ncount 50000\nobjects 2\nobject {SENT} 2 0 0 2 0 0\nobject {SENT} 1 0 0\nevents 699000\n"
    )?;
    for object in 0..2u32 {
        for serial in 0..SENT {
            let event = format!(in alloc;
                "event 140737488355327.65535 255 0 {object} {serial} 4294967295 18446744073709551615 18446744073709551615\n"
            )?;
            text.push_str(event.as_str())?;
        }
    }
    Ok(text)
}

/// The text that begins so and has so many bytes more than it may, with line breaks behind its model.
fn filled(alloc: Global, front: &str, model: &str, more: u16) -> Result<String, Fail> {
    let model_length = (MOST + usize::from(more))
        .checked_sub(front.len())
        .and_then(|left| left.checked_sub("model 123456\n".len()))
        .ok_or("a long front")?;
    let breaks = model_length.checked_sub(model.len()).ok_or("a long model")?;
    let breaks = "\n".repeat(alloc, breaks)?;
    Ok(format!(in alloc; "{front}model {model_length}\n{model}{breaks}")?)
}

#[test]
fn a_state_of_64_mebibytes_goes_on_and_a_longer_one_is_refused(
    rt: HostRuntime,
) -> Result<(), Fail> {
    let alloc = rt.alloc();
    let front = crowded(alloc)?;
    for (more, status, text, notes) in [
        (0, 0, "end 10 events 50000\n", ""),
        (1, 8, "", "state: 1 TooLong line 0\n"),
    ] {
        let state = filled(alloc, front.as_str(), TWO_JOBS, more)?;
        assert!(rt; state.len() == MOST + usize::from(more));
        let source = MemSource::new(state.into_bytes(), Vec::new(alloc), 65_536);
        let out = sink_of(alloc, &[], &[])?;
        ended_by(&rt, "resume", source, out, &Open)?.expect(status, text, notes, "resume")?;
    }
    Ok(())
}
