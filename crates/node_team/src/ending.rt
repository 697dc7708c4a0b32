//! The end of a cycle: what is due is committed, released through lanes and received.
ghost use Rattle.std.specs.Prelude.{◌≡◌, ◌<◌, ◌^◌, length, IfOk, OnOk};
ghost use Rattle.model_core.specs.Meaning.{MeaningLaws};
ghost use Rattle.sim_spec.specs.State.{State};
ghost use Rattle.cycle_core.specs.Blank.{AreBlankLists};
ghost use Rattle.cycle_core.specs.Busy.{NamesBusy};
ghost use Rattle.cycle_core.specs.Cuts.{CanEnd, HaveEnded, IsCutOf};
ghost use Rattle.cycle_core.specs.Cycled.{IsClosedAt};
ghost use Rattle.cycle_core.specs.Known.{AreKnown};
ghost use Rattle.cycle_core.specs.Places.{AtEach};
ghost use Rattle.cycle_core.specs.Worlds.{IsSameWorld, StandsAt};
ghost use Rattle.node_team.specs.Readiness.{IsReady};

use crate::arriving::{Receipt, receive_arrived};
use crate::kept::Kept;
use crate::paying::share;
use crate::releasing::{Due, release_all};
use crate::setting::Setting;
use cycle_core::{Cut, Lists, World, know_all, merge};
use model_core::model::{Model as SimulationModel, keeps_laws};
use model_core::{OutOfMemory, RecordBuffer};
use node_core::Node;
use release_lanes::Lanes;
use std::mem;
use std::thread::Threads;

/// Each node commits what is due, releases it through lanes, and receives what comes to it. Answers what is told, in the
/// order of the keys. All lists are blank again at the end.
fn end_nodes<R: Threads + Sync, M: SimulationModel, L: Lanes, G>(
    setting: &Setting<R, G>,
    due: &Due,
    nodes: &mut [Node<M>],
    kept: &mut Kept<L>,
    lists: &mut Lists,
) -> Result<RecordBuffer, OutOfMemory>
    requires most { 0 < due.now.most }
    requires can { CanEnd M.meaning due.now.bound due.now.below nodes.old }
    requires numbered { AtEach (λ place n. n.number ≡ place) nodes.old }
    requires few { length nodes.old < 2 ^ 32 }
    requires ready { IsReady L.nodes L.are_at_rest (length nodes.old) kept.old }
    requires blank { AreBlankLists (length nodes.old) lists.old }
    ensures ended { IfOk result (λ records. HaveEnded M.meaning due.now.bound due.now.below nodes.old nodes.new records.items) }
    ensures known { OnOk result (AreKnown M.meaning nodes.new) }
    ensures ready { OnOk result (IsReady L.nodes L.are_at_rest (length nodes.old) kept.new) }
    ensures blank { OnOk result (AreBlankLists (length nodes.old) lists.new) }
{
    release_all(setting, due, nodes, lists.committed.as_mut_slice(), kept)?;
    know_all(nodes);
    let receipt = Receipt {
        alloc: setting.alloc,
        most: due.most,
    };
    receive_arrived(setting.rt, &receipt, nodes, kept.inboxes.as_mut_slice())?;
    know_all(nodes);
    let told = mem::replace(&mut lists.told, RecordBuffer::new(setting.alloc));
    let records = merge(lists.committed.as_mut_slice(), told, &mut lists.spare)?;
    Ok(records)
}

/// Commits and receipts of a closed cycle, with releases through lanes. Answers what is told, in the order of the keys. After
/// a refusal the world has lost its nodes.
fn release_world<R: Threads + Sync, M: SimulationModel, L: Lanes, G>(
    setting: &Setting<R, G>,
    world: &mut World<M>,
    kept: &mut Kept<L>,
    bound: u64,
    cut: &Cut,
) -> Result<RecordBuffer, OutOfMemory>
    requires stands { (s : State) × StandsAt (M.meaning world.old.model) world.old s }
    requires closed { IsClosedAt M.meaning world.old world.old.nodes bound }
    requires cut { IsCutOf M.meaning world.old bound cut.now }
    requires ready { IsReady L.nodes L.are_at_rest world.old.homes.nodes kept.old }
    ensures ended { IfOk result (λ records. HaveEnded M.meaning bound cut.now.below world.old.nodes world.new.nodes records.items) }
    ensures known { OnOk result (AreKnown M.meaning world.old.nodes) }
    ensures known_now { OnOk result (AreKnown M.meaning world.new.nodes) }
    ensures laws { MeaningLaws (M.meaning world.old.model) }
    ensures made { IsSameWorld world.old world.new }
    ensures world { OnOk result (world.new ≡ record world.old { nodes = world.new.nodes }) }
    ensures ready { OnOk result (IsReady L.nodes L.are_at_rest world.old.homes.nodes kept.new) }
{
    keeps_laws(world.model());
    let count = world.nodes();
    let due = Due {
        bound,
        below: cut.below,
        most: share(count as usize, kept.load.commit_threads()),
    };
    let mut lists = world.take_lists(setting.alloc)?;
    let mut nodes = world.take_nodes();
    know_all(&nodes);
    let records = end_nodes(setting, &due, nodes.as_mut_slice(), kept, &mut *lists)?;
    world.put_nodes(nodes);
    world.put_lists(lists);
    Ok(records)
}

/// Commits and receipts of a closed cycle. Where no fork pays, nothing goes through lanes, which stay at rest. Answers what
/// is told, in the order of the keys. After a refusal the world has lost its nodes.
pub fn end_world<R: Threads + Sync, M: SimulationModel, L: Lanes, G>(
    setting: &Setting<R, G>,
    world: &mut World<M>,
    kept: &mut Kept<L>,
    bound: u64,
    cut: &Cut,
) -> Result<RecordBuffer, OutOfMemory>
    requires stands { (s : State) × StandsAt (M.meaning world.old.model) world.old s }
    requires closed { IsClosedAt M.meaning world.old world.old.nodes bound }
    requires cut { IsCutOf M.meaning world.old bound cut.now }
    requires ready { IsReady L.nodes L.are_at_rest world.old.homes.nodes kept.old }
    requires busy { NamesBusy world.old.nodes kept.old.busy.items }
    ensures ended { IfOk result (λ records. HaveEnded M.meaning bound cut.now.below world.old.nodes world.new.nodes records.items) }
    ensures known { OnOk result (AreKnown M.meaning world.old.nodes) }
    ensures known_now { OnOk result (AreKnown M.meaning world.new.nodes) }
    ensures laws { MeaningLaws (M.meaning world.old.model) }
    ensures made { IsSameWorld world.old world.new }
    ensures world { OnOk result (world.new ≡ record world.old { nodes = world.new.nodes }) }
    ensures ready { OnOk result (IsReady L.nodes L.are_at_rest world.old.homes.nodes kept.new) }
{
    if kept.load.forks_nothing() {
        return world.end_cycle(setting.alloc, bound, cut, kept.busy.as_slice());
    }
    release_world(setting, world, kept, bound, cut)
}
