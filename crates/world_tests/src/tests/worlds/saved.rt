//! Worlds whose state is taken out, and put in on other nodes.
ghost use Rattle.std.specs.Prelude.{◌≤◌, IfOk, OnOk};
ghost use Rattle.std.specs.Arc.{arc_value};
ghost use Rattle.model_core.specs.declared.limits.TheConstants.{MOST_NODES};
ghost use Rattle.sim_spec.specs.State.{State, Lawful};
ghost use Rattle.cycle_core.specs.Worlds.{IsSameWorld, StandsAt};

use super::PLACEMENTS;
use crate::tests::model_of;
use cycle_core::World;
use event_key::{Key, stamp_of};
use model_core::model::Model as SimulationModel;
use model_core::{Cells, Event, OutOfMemory, Part};
use sim_spec::{Bucket, Placement, State, Terms};
use std::alloc::Global;
use std::process::Abort;
use std::sync::Arc;
use std::test::Fail;
use test_texts::{FALSE_FAULT, SHOP, SHOP_OF_TEN, SHORT_BANK, STRICT_LINE, TWO_JOBS};

/// More cycles than any of these models has.
const MANY: usize = 100_000;

/// On how many nodes the objects of a world are, and how they are placed.
#[derive(Clone, Copy)]
struct Nodes {
    count: u32,
    placement: Placement,
    ghost low: { 1 ≤ count },
    ghost high: { count ≤ MOST_NODES },
}

/// Appends the records of a bucket.
fn put_told(
    alloc: Global,
    bucket: &Bucket,
    into: &mut Vec<(Key, Vec<Part>)>,
) -> Result<(), OutOfMemory> {
    let records = bucket.done.as_buffer();
    for i in 0..records.len() {
        let (key, parts) = records.at(i);
        into.push((*key, parts.to_vec(alloc)?))?;
    }
    Ok(())
}

/// Runs a world for at most so many cycles, and appends what it did.
fn run_on<M: SimulationModel>(
    alloc: Global,
    world: &mut World<M>,
    cycles: usize,
    done: &mut Vec<(Key, Vec<Part>)>,
) -> Result<(), OutOfMemory>
    requires { (s : State) × StandsAt (M.meaning world.old.model) world.old s }
    ensures same { IsSameWorld world.old world.new }
    ensures stands { OnOk result ((s : State) × StandsAt (M.meaning world.new.model) world.new s) }
{
    'cycles: for _ in 0..cycles {
        if world.ended().is_some() {
            return Ok(());
        }
        let bucket = world.cycle_alone(alloc)?;
        put_told(alloc, &bucket, done)?;
    }
    Ok(())
}

/// The state after so many cycles, which tell what is appended.
fn saved_after<M: SimulationModel>(
    alloc: Global,
    model: &Arc<M>,
    terms: Terms,
    nodes: Nodes,
    cycles: usize,
    done: &mut Vec<(Key, Vec<Part>)>,
) -> Result<State, OutOfMemory>
    ensures { IfOk result (λ state. Lawful (M.meaning (arc_value model.now)) terms state) }
{
    let mut world = World::begin(
        alloc,
        Arc::clone(model)?,
        terms,
        nodes.count,
        nodes.placement,
    )?;
    run_on(alloc, &mut world, cycles, done)?;
    let state = world.snapshot(alloc)?;
    Ok(state)
}

/// Goes on from a state to the end, and appends what that tells.
fn go_on_from<M: SimulationModel>(
    alloc: Global,
    model: &Arc<M>,
    terms: Terms,
    nodes: Nodes,
    state: State,
    done: &mut Vec<(Key, Vec<Part>)>,
) -> Result<(), OutOfMemory>
    requires { Lawful (M.meaning (arc_value model.now)) terms state }
{
    let mut world = World::from_state(
        alloc,
        Arc::clone(model)?,
        terms,
        nodes.count,
        nodes.placement,
        state,
    )?;
    run_on(alloc, &mut world, MANY, done)
}

/// What a world does that is saved after so many cycles, and goes on from its state on other nodes.
fn done_saved<M: SimulationModel>(
    alloc: Global,
    model: &Arc<M>,
    terms: Terms,
    nodes: Nodes,
    others: Nodes,
    cycles: usize,
) -> Result<Vec<(Key, Vec<Part>)>, OutOfMemory> {
    let mut done = Vec::new(alloc);
    let state = saved_after(alloc, model, terms, nodes, cycles, &mut done)?;
    go_on_from(alloc, model, terms, others, state, &mut done)?;
    Ok(done)
}

/// What a world does that isn't saved.
fn done_whole<M: SimulationModel>(
    alloc: Global,
    model: &Arc<M>,
    terms: Terms,
    nodes: Nodes,
) -> Result<Vec<(Key, Vec<Part>)>, OutOfMemory> {
    let mut done = Vec::new(alloc);
    let model = Arc::clone(model)?;
    let mut world = World::begin(alloc, model, terms, nodes.count, nodes.placement)?;
    run_on(alloc, &mut world, MANY, &mut done)?;
    Ok(done)
}

/// So many nodes.
fn nodes_of<R: Abort>(rt: &R, count: u32, placement: Placement) -> Nodes {
    assert!(rt; count >= 1 && count <= 64);
    Nodes { count, placement }
}

/// A model that is saved after so many cycles on the first of these nodes does this on both.
fn assert_saved<R: Abort, M: SimulationModel>(
    rt: &R,
    alloc: Global,
    model: &Arc<M>,
    terms: Terms,
    on: (Nodes, Nodes),
    cycles: usize,
    whole: &[(Key, Vec<Part>)],
) -> Result<(), Fail> {
    let done = done_saved(alloc, model, terms, on.0, on.1, cycles)?;
    assert!(rt; done.as_slice() == whole, "after {cycles} cycles");
    Ok(())
}

/// A model does the same where it is saved after any of these numbers of cycles.
fn assert_same<R: Abort, M: SimulationModel>(
    rt: &R,
    alloc: Global,
    model: &Arc<M>,
    terms: Terms,
    saved_after: &[usize],
) -> Result<(), Fail> {
    let one = nodes_of(rt, 1, Placement::Round);
    let whole = done_whole(alloc, model, terms, one)?;
    assert!(rt; !whole.is_empty());
    for (count, others) in [(1, 3), (3, 2), (2, 64)] {
        for placement in PLACEMENTS {
            let nodes = nodes_of(rt, count, placement);
            let on = (nodes, nodes_of(rt, others, Placement::Round));
            for cycles in saved_after {
                assert_saved(rt, alloc, model, terms, on, *cycles, whole.as_slice())?;
            }
        }
    }
    Ok(())
}

// The runs have seven cycles, six up to the limit, one up to the fault, and six.
#[test]
fn a_run_goes_on_from_its_state_on_other_nodes(rt: HostRuntime) -> Result<(), Fail> {
    let alloc = rt.alloc();
    let all = [0, 1, 2, 3, 4, 5, 6, 7, 8];
    for text in [SHOP, SHOP_OF_TEN, STRICT_LINE, FALSE_FAULT] {
        let (model, terms) = model_of(alloc, text)?;
        assert_same(&rt, alloc, &Arc::new(alloc, model)?, terms, &all)?;
    }
    Ok(())
}

// A thousand customers with draws at each, who are in lines and on their way at each cycle.
#[test]
fn a_bank_goes_on_from_its_state_on_other_nodes(rt: HostRuntime) -> Result<(), Fail> {
    let (model, terms) = model_of(rt.alloc(), SHORT_BANK)?;
    let model = Arc::new(rt.alloc(), model)?;
    assert_same(&rt, rt.alloc(), &model, terms, &[1, 10, 100, 1000])
}

// Both jobs come at 4: one is served till 6, and the other one waits in line.
#[test]
fn a_snapshot_tells_the_state_between_two_cycles(rt: HostRuntime) -> Result<(), Fail> {
    let alloc = rt.alloc();
    let (model, terms) = model_of(alloc, TWO_JOBS)?;
    let model = Arc::new(alloc, model)?;
    for count in [1, 2] {
        let nodes = nodes_of(&rt, count, Placement::Round);
        let mut done = Vec::new(alloc);
        let state = saved_after(alloc, &model, terms, nodes, 1, &mut done)?;
        assert!(rt; state.count == 2);
        let leaves = Event {
            key: Key {
                stamp: stamp_of(6, 0),
                rank: 0,
                dest: 0,
                src: 0,
                serial: 0,
            },
            kind: 2,
            a: 1,
            b: 4,
        };
        assert!(rt; state.pending.as_slice() == [leaves].as_slice());
        assert!(rt; state.objects.len() == 2);
        let station = &state.objects[0];
        assert!(rt; station.sent == 1);
        assert_cells(&rt, &station.cells, &[0, 1], &[2, 4]);
        let sink = &state.objects[1];
        assert!(rt; sink.sent == 0);
        assert_cells(&rt, &sink.cells, &[0], &[]);
    }
    Ok(())
}

/// These are the words, and each line holds one value.
fn assert_cells<R: Abort>(rt: &R, cells: &Cells, words: &[u64], lines: &[u64]) {
    assert!(rt; cells.words() as usize == words.len());
    for i in 0..cells.words() {
        assert!(rt; cells.word(i) == words[i as usize]);
    }
    assert!(rt; cells.lines() as usize == lines.len());
    for i in 0..cells.lines() {
        assert!(rt; cells.line_len(i) == 1);
        assert!(rt; cells.line_at(i, 0) == lines[i as usize]);
    }
}
