//! Long texts: a tick up to its last step, a thousand customers, and a model of many pieces.
ghost use Rattle.std.specs.Prelude.{◌≤◌};

use super::{assert_by_all, ended_by, told_by};
use model_program::Open;
use sim_io::MemSource;
use std::alloc::{AllocGlobal, Global};
use std::process::Abort;
use std::test::Fail;
use std::thread::Threads;
use test_texts::{BANK, ENDLESS, Ended, GATE_RING, LONG_ROUTER_LOOP, network, sink_of};

/// The text of what goes on without delay and tells these lines in turn, up to the step that has no next one.
fn text_of_tick(alloc: Global, even: &str, odd: &str, object: &str) -> Result<String, Fail> {
    let mut text = String::new(alloc);
    for step in 0..65_535u32 {
        let told = if step % 2 == 0 { even } else { odd };
        let line = format!(in alloc; "0.{step} {told}\n")?;
        text.push_str(line.as_str())?;
    }
    let fault = format!(in alloc; "fault 0.65535 {object} chain\n")?;
    text.push_str(fault.as_str())?;
    Ok(text)
}

#[test]
fn a_tick_has_no_step_after_the_last(rt: HostRuntime) -> Result<(), Fail> {
    let all = ["one", "run", "run --nodes 1 --ahead 0"];
    for (model, even, odd, object) in [
        (ENDLESS, "p0 hop 0 0", "p0 hop 0 0", "p0"),
        (GATE_RING, "n level 1 0", "n level 0 0", "n"),
    ] {
        let text = text_of_tick(rt.alloc(), even, odd, object)?;
        assert_by_all(&rt, &all, model, 1, text.as_str())?;
    }
    Ok(())
}

/// By these words two routers send a job to and fro up to the last step of a tick.
fn assert_to_and_fro<R: Abort + AllocGlobal + Threads + Sync>(
    rt: &R,
    all: &[&str],
) -> Result<(), Fail> {
    let text = text_of_tick(rt.alloc(), "r0 route 1 1", "r1 route 1 0", "r1")?;
    assert_by_all(rt, all, LONG_ROUTER_LOOP, 1, text.as_str())
}

#[test]
fn one_node_comes_to_the_last_step_at_any_depth(rt: HostRuntime) -> Result<(), Fail> {
    let all = [
        "run --nodes 1 --ahead 0",
        "run --nodes 1 --ahead 1",
        "run --nodes 1 --ahead 8",
        "run --nodes 1 --ahead 1024",
    ];
    assert_to_and_fro(&rt, &all)
}

#[test]
fn two_nodes_come_to_the_last_step_at_any_depth(rt: HostRuntime) -> Result<(), Fail> {
    let all = [
        "run --nodes 2 --ahead 0",
        "run --nodes 2 --ahead 1",
        "run --nodes 2 --ahead 8",
        "run --nodes 2 --ahead 1024",
    ];
    assert_to_and_fro(&rt, &all)
}

// More cycles than events that are pending at once, with draws at each. An independent simulator in Python has the same first and
// last line.
#[test]
fn a_bank_has_one_text(rt: HostRuntime) -> Result<(), Fail> {
    let one = told_by(&rt, "one", BANK)?;
    assert!(rt; one.text.as_str().starts_with("0.0 door make 1 999\n"));
    assert!(rt; one.text.as_str().ends_with("\nend 100000 events 5416\n"));
    for words in [
        "one",
        "run",
        "run --nodes 1 --ahead 0",
        "run --nodes 16 --ahead 1024 --placement block",
    ] {
        told_by(&rt, words, BANK)?.expect(0, one.text.as_str(), "", words)?;
    }
    Ok(())
}

/// A job that is held for 4 ticks and leaves by the last one of 2,000 sinks.
fn many_sinks(alloc: Global) -> Result<String, Fail> {
    let mut objects = String::from_str(
        alloc,
        "
[[object]]
name = \"d\"
kind = \"delay\"
delay = { law = \"fixed\", value = 4 }
next = \"o1999\"

[[job]]
time = 0
at = \"d\"
",
    )?;
    for sink in 0..2_000 {
        let object = format!(in alloc; "\n[[object]]\nname = \"o{sink}\"\nkind = \"sink\"\n")?;
        objects.push_str(object.as_str())?;
    }
    Ok(network(alloc, "end = 10", objects.as_str())?)
}

/// How a run ends that reads so many bytes at once.
fn told_of_pieces<R: AllocGlobal + Threads + Sync>(
    rt: &R,
    model: &str,
    piece: usize,
) -> Result<Ended, Fail>
    requires { 1 ≤ piece }
{
    let alloc = rt.alloc();
    let source = MemSource::new(model.as_bytes().to_vec(alloc)?, Vec::new(alloc), piece);
    ended_by(rt, "run", source, sink_of(alloc, &[], &[])?, &Open)
}

#[test]
fn a_model_of_many_pieces_is_read_and_run(rt: HostRuntime) -> Result<(), Fail> {
    let text = many_sinks(rt.alloc())?;
    assert!(rt; text.len() > 65_536);
    let wanted = "0.0 d hold 1 4\n4.0 o1999 leave 1 4\nend 10 events 2\n";
    for (piece, name) in [(100, "small"), (65_536, "large"), (1_048_576, "whole")] {
        told_of_pieces(&rt, text.as_str(), piece)?.expect(0, wanted, "", name)?;
    }
    Ok(())
}
