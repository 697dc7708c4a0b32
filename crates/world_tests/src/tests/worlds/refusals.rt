//! What stands of a team after its model has refused an effect for want of memory.
use crate::tests::model_of;
use crate::tests::team_run::{TeamRun, by_rings};
use model_core::model::Model as SimulationModel;
use node_team::Open;
use release_lanes::Lanes;
use sim_io::LineWriter;
use sim_spec::Bucket;
use std::alloc::Global;
use std::process::Abort;
use std::sync::Arc;
use std::test::Fail;
use std::thread::Threads;
use test_models::Stingy;
use test_texts::SHOP;
use test_texts::wanted::SHOP_TEXT;

/// Appends what is told of a bucket.
fn put_bucket<R: Abort, N: SimulationModel>(
    rt: &R,
    alloc: Global,
    names: &N,
    bucket: &Bucket,
    text: &mut Vec<u8>,
) -> Result<(), Fail> {
    let mut lines = LineWriter::new(alloc)?;
    let records = bucket.done.as_buffer();
    for i in 0..records.len() {
        let (key, parts) = records.at(i);
        assert!(rt; key.dest < names.objects());
        lines.put_done(alloc, names, key, parts, text)?;
    }
    Ok(())
}

/// What the cycles tell until the simulation has ended or a cycle is refused, and whether it ended.
fn told_by<R: Abort + Threads + Sync, N: SimulationModel, M: SimulationModel, L: Lanes + Drop>(
    rt: &R,
    alloc: Global,
    names: &N,
    run: &mut TeamRun<M, L>,
) -> Result<(Vec<u8>, bool), Fail> {
    let mut text = Vec::new(alloc);
    for _ in 0..13 {
        match run.next(rt, alloc, &Open) {
            Ok(Some(bucket)) => put_bucket(rt, alloc, names, &bucket, &mut text)?,
            Ok(None) => return Ok((text, true)),
            Err(_) => return Ok((text, false)),
        }
    }
    Err(Fail::from("more cycles than events"))
}

/// Runs a model of which this is told if nothing is refused. What is told is that, or a prefix of it, after which each cycle is
/// refused. Answers whether it ended.
fn ends_so<R: Abort + Threads + Sync, N: SimulationModel, M: SimulationModel, L: Lanes + Drop>(
    rt: &R,
    alloc: Global,
    names: &N,
    run: &mut TeamRun<M, L>,
    records: &[u8],
) -> Result<bool, Fail> {
    let (text, ended) = told_by(rt, alloc, names, run)?;
    assert!(rt; records.starts_with(text.as_slice()));
    assert!(rt; !ended || text.len() == records.len());
    assert!(rt; ended || (run.refuses(rt, alloc, &Open) && run.refuses(rt, alloc, &Open)));
    Ok(ended)
}

/// Runs a shop on two nodes, whose model answers so many effects and refuses the next one. Answers whether it ended.
fn ends_after<R: Abort + Threads + Sync>(rt: &R, alloc: Global, before: u64) -> Result<bool, Fail> {
    let records = SHOP_TEXT
        .strip_suffix("end 20 events 12\n")
        .ok_or("no end")?;
    let (names, _) = model_of(alloc, SHOP)?;
    let (shop, terms) = model_of(alloc, SHOP)?;
    let model = Arc::new(alloc, Stingy::new(shop, before))?;
    let mut run = by_rings(alloc, model, terms, 2, 8)?;
    ends_so(rt, alloc, &names, &mut run, records.as_bytes())
}

// Each of the twelve events has an effect, and those that were undone have more than one.
#[test]
fn a_team_whose_model_refuses_an_effect_is_spent_after_a_prefix(
    rt: HostRuntime,
) -> Result<(), Fail> {
    let alloc = rt.alloc();
    for before in 0..12 {
        assert!(rt; !ends_after(&rt, alloc, before)?, "{before}");
    }
    for before in 12..40 {
        ends_after(&rt, alloc, before)?;
    }
    assert!(rt; ends_after(&rt, alloc, 1_000_000)?);
    Ok(())
}
