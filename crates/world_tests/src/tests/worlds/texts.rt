//! The text of a world, on any number of nodes and with objects placed either way.
use super::PLACEMENTS;
use super::world_run::run_world;
use crate::tests::model_of;
use model_core::model::Model as SimulationModel;
use model_program::{Job, Machine, Stage, run_model};
use model_text::AnyModel;
use node_team::Open;
use run_tally::{NoTally, Tally};
use sim_io::MemSink;
use sim_spec::{Placement, Terms};
use sim_text::Telling;
use std::alloc::Global;
use std::process::Abort;
use std::test::Fail;
use std::thread::Threads;
use test_texts::wanted::{ELEVEN_EVENTS, FALSE_FAULT_TEXT, SHOP_CYCLES, SHOP_TEXT, TEN_EVENTS};
use test_texts::{BANK, FALSE_FAULT, SHOP, SHOP_OF_ELEVEN, SHOP_OF_TEN};

/// Room for a text.
fn sink(alloc: Global) -> Result<MemSink, Fail> {
    Ok(MemSink::new(alloc, 1_048_576, Vec::new(alloc), Vec::new(alloc), 65_536)?)
}

/// What a world of so many nodes writes of a model, with lines of cycles or without.
fn text_of<R: Abort>(
    rt: &R,
    alloc: Global,
    model: &str,
    cycles: bool,
    nodes: u32,
    placement: Placement,
) -> Result<MemSink, Fail> {
    let (model, terms) = model_of(alloc, model)?;
    assert!(rt; nodes >= 1 && nodes <= 64);
    let mut out = sink(alloc)?;
    let Ok(_) = run_world(alloc, model, terms, nodes, placement, cycles, &mut out) else {
        return Err(Fail::from("the text isn't whole"));
    };
    Ok(out)
}

/// On any number of nodes the model has this text.
fn assert_text<R: Abort>(
    rt: &R,
    alloc: Global,
    model: &str,
    cycles: bool,
    text: &str,
) -> Result<(), Fail> {
    for nodes in [1, 2, 3, 64] {
        for placement in PLACEMENTS {
            let out = text_of(rt, alloc, model, cycles, nodes, placement)?;
            let told = std::str::from_utf8(out.bytes())?;
            assert!(rt; told == text, "on {nodes} nodes");
        }
    }
    Ok(())
}

/// Models, whether lines of cycles are told, and the texts.
const TEXTS: [(&str, bool, &str); 5] = [
    (SHOP, false, SHOP_TEXT),
    (SHOP, true, SHOP_CYCLES),
    (SHOP_OF_ELEVEN, true, ELEVEN_EVENTS),
    (SHOP_OF_TEN, true, TEN_EVENTS),
    // a line that is full only where the first job still waits
    (FALSE_FAULT, false, FALSE_FAULT_TEXT),
];

#[test]
fn the_text_is_the_same_on_any_number_of_nodes(rt: HostRuntime) -> Result<(), Fail> {
    for (model, cycles, text) in &TEXTS {
        assert_text(&rt, rt.alloc(), model, *cycles, text)?;
    }
    Ok(())
}

/// What the engine for one thread writes of a model, with lines of cycles.
fn one_text_of<R: Threads + Sync, M: SimulationModel, L: Tally<M>>(
    rt: &R,
    alloc: Global,
    model: M,
    terms: Terms,
) -> Result<MemSink, Fail> {
    let mut out = sink(alloc)?;
    let stage = Stage {
        rt,
        alloc,
        gate: &Open,
    };
    let job = Job {
        model,
        terms,
        machine: Machine::OneThread,
        telling: Telling::Lines { cycles: true },
    };
    let Ok(_) = run_model::<R, Open, M, L, MemSink>(stage, job, &mut out) else {
        return Err(Fail::from("the text isn't whole"));
    };
    Ok(out)
}

// More cycles than events that any of its nodes has pending, with draws at each.
#[test]
fn a_bank_has_the_text_of_the_engine_for_one_thread(rt: HostRuntime) -> Result<(), Fail> {
    let alloc = rt.alloc();
    let (model, terms) = model_of(alloc, BANK)?;
    let one = one_text_of::<HostRuntime, AnyModel, NoTally>(&rt, alloc, model, terms)?;
    for (nodes, placement) in [
        (1, Placement::Round),
        (4, Placement::Round),
        (16, Placement::Block),
    ] {
        let out = text_of(&rt, alloc, BANK, true, nodes, placement)?;
        assert!(rt; out.bytes() == one.bytes());
    }
    Ok(())
}
