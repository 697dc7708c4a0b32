//! Simulations that are saved after some cycles, and go on from there.
use super::told_by;
use std::alloc::AllocGlobal;
use std::process::Abort;
use std::test::Fail;
use std::thread::Threads;
use test_texts::wanted::SHOP_TEXT;
use test_texts::{SAVED_TWO_JOBS, SHOP, STRICT_LINE, TWO_JOBS};

/// The records and the state of a model that is saved after so many cycles.
fn saved<R: Abort + AllocGlobal + Threads + Sync>(
    rt: &R,
    model: &str,
    cycles: u32,
) -> Result<(String, String), Fail> {
    let alloc = rt.alloc();
    let words = format!(in alloc; "save {cycles}")?;
    let saved = told_by(rt, words.as_str(), model)?;
    assert!(rt; saved.status == 0);
    assert!(rt; saved.notes.as_str() == "");
    let (records, state) = saved
        .text
        .as_str()
        .split_once("state 1\n")
        .ok_or("no state")?;
    let records = String::from_str(alloc, records)?;
    Ok((records, ["state 1\n", state].concat(alloc)?))
}

#[test]
fn a_state_is_saved_behind_the_records_of_its_cycles(rt: HostRuntime) -> Result<(), Fail> {
    let (records, state) = saved(&rt, TWO_JOBS, 1)?;
    assert!(rt; records.as_str() == "4.0 s take 1 0\n4.0 s wait 2 1\n");
    assert!(rt; state.as_str() == SAVED_TWO_JOBS);
    told_by(&rt, "resume", state.as_str())?.expect(
        0,
        "6.0 s done 1 0\n6.1 out leave 1 2\n8.0 s done 2 0\n8.1 out leave 2 4\nend 10 events 6\n",
        "",
        "resume",
    )?;
    Ok(())
}

/// Both jobs of the saved model.
const JOBS: &str = "[[job]]\ntime = 4\nat = \"s\"\n\n[[job]]\ntime = 4\nat = \"s\"\n";

/// The same with a byte behind it.
const MORE: &str = "[[job]]\ntime = 4\nat = \"s\"\n\n[[job]]\ntime = 4\nat = \"s\"\n\n";

/// What of the saved text is changed, what it becomes, and what is noted of the changed one.
const CHANGES: [(&str, &str, &str); 5] = [
    (SAVED_TWO_JOBS, "", "state: 2 BadLine line 1\n"),
    (SAVED_TWO_JOBS, TWO_JOBS, "state: 2 BadLine line 1\n"),
    ("object 1 ", "object 01 ", "state: 2 BadLine line 4\n"),
    (
        "event 6.0 0 0 0 0",
        "event 6.0 0 0 0 1",
        "state: 4 Unlawful line 7\n",
    ),
    (JOBS, MORE, "state: 2 BadLine line 8\n"),
];

#[test]
fn a_state_that_no_simulation_meets_is_refused(rt: HostRuntime) -> Result<(), Fail> {
    for (old, new, line) in &CHANGES {
        let text = SAVED_TWO_JOBS.replacen(rt.alloc(), old, new, 1)?;
        told_by(&rt, "resume", text.as_str())?.expect(8, "", line, new)?;
    }
    Ok(())
}

#[test]
fn a_fault_is_told_by_what_goes_on(rt: HostRuntime) -> Result<(), Fail> {
    let (records, state) = saved(&rt, STRICT_LINE, 9)?;
    assert!(rt; records.as_str() == "5.0 s take 1 0\n6.0 s wait 2 1\n");
    assert!(rt; state.as_str().starts_with("state 1\ncount 2\n"));
    assert!(rt; state.as_str().contains("\nevents 2\nevent 7.0 "));
    assert!(rt; state.as_str().contains("\nevent 105.0 "));
    told_by(&rt, "resume", state.as_str())?.expect(1, "fault 7.0 s line-full\n", "", "resume")?;
    Ok(())
}

#[test]
fn what_is_told_before_and_after_is_the_whole(rt: HostRuntime) -> Result<(), Fail> {
    for cycles in 0..9 {
        let (records, state) = saved(&rt, SHOP, cycles)?;
        let resumed = told_by(&rt, "resume", state.as_str())?;
        assert!(rt; resumed.status == 0);
        let whole = [records.as_str(), resumed.text.as_str()].concat(rt.alloc())?;
        assert!(rt; whole.as_str() == SHOP_TEXT);
    }
    Ok(())
}
