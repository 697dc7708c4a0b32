//! A cycle, in threads where that pays.
ghost use Rattle.std.specs.Prelude.{◌≡◌, true, false, IfOk, OnOk, OnErr};
ghost use Rattle.sim_spec.specs.State.{State};
ghost use Rattle.cycle_core.specs.Busy.{NamesBusy};
ghost use Rattle.cycle_core.specs.Cycled.{CarriesOn, IsBucketOf, StandsAfter};
ghost use Rattle.cycle_core.specs.Standings.{HasCycled};
ghost use Rattle.cycle_core.specs.Worlds.{StandsAt, CanCycle, IsSameWorld};
ghost use Rattle.node_team.specs.Handings.{AreWorkers};
ghost use Rattle.node_team.specs.Readiness.{IsReady};
ghost use Rattle.node_team.specs.Rises.{AllRise};

use crate::closing::close_world;
use crate::ending::end_world;
use crate::gate::Gate;
use crate::kept::Kept;
use crate::paying::Load;
use crate::setting::Setting;
use cycle_core::{World, bucket_of};
use model_core::OutOfMemory;
use model_core::model::Model as SimulationModel;
use release_lanes::Lanes;
use sim_spec::Bucket;
use std::thread::Threads;

/// One cycle of a world whose nodes that have events are named, up to the state after it.
fn run_busy<R: Threads + Sync, M: SimulationModel, L: Lanes, G: Gate>(
    setting: &Setting<R, G>,
    world: &mut World<M>,
    kept: &mut Kept<L>,
) -> Result<Bucket, OutOfMemory>
    requires workers { AreWorkers setting.now.workers }
    requires stands { (s : State) × StandsAt (M.meaning world.old.model) world.old s }
    requires ready { IsReady L.nodes L.are_at_rest world.old.homes.nodes kept.old }
    requires busy { NamesBusy world.old.nodes kept.old.busy.items }
    ensures bucket { IfOk result (IsBucketOf M.meaning world.old) }
    ensures stands { OnOk result (StandsAfter M.meaning world.old world.new) }
    ensures carried { OnOk result (CarriesOn M.meaning world.old world.new) }
    ensures work { OnOk result (AllRise M.meaning setting.now.ahead world.old.nodes world.new.nodes) }
    ensures made { IsSameWorld world.old world.new }
    ensures fault { IfOk result (λ bucket. world.new.fault ≡ bucket.fault) }
    ensures ready { OnOk result (IsReady L.nodes L.are_at_rest world.old.homes.nodes kept.new) }
{
    let before = world.processed_by(kept.busy.as_slice());
    let bound = close_world(
        setting,
        world,
        &kept.load,
        &mut kept.seats,
        kept.busy.as_slice(),
    )?;
    let cut = world.commit_cut_among(setting.alloc, bound, kept.busy.as_slice())?;
    let processed = world
        .processed_by(kept.busy.as_slice())
        .wrapping_sub(before);
    let records = end_world(setting, world, kept, bound, &cut)?;
    let committed = records.len() as u64;
    world.finish(&cut, committed);
    kept.load = Load {
        processed,
        committed,
    };
    Ok(bucket_of(bound, &cut, records))
}

/// One cycle, up to the state after it.
fn run_cycle<R: Threads + Sync, M: SimulationModel, L: Lanes, G: Gate>(
    setting: &Setting<R, G>,
    world: &mut World<M>,
    kept: &mut Kept<L>,
) -> Result<Bucket, OutOfMemory>
    requires workers { AreWorkers setting.now.workers }
    requires stands { (s : State) × StandsAt (M.meaning world.old.model) world.old s }
    requires ready { IsReady L.nodes L.are_at_rest world.old.homes.nodes kept.old }
    ensures bucket { IfOk result (IsBucketOf M.meaning world.old) }
    ensures stands { OnOk result (StandsAfter M.meaning world.old world.new) }
    ensures carried { OnOk result (CarriesOn M.meaning world.old world.new) }
    ensures work { OnOk result (AllRise M.meaning setting.now.ahead world.old.nodes world.new.nodes) }
    ensures made { IsSameWorld world.old world.new }
    ensures fault { IfOk result (λ bucket. world.new.fault ≡ bucket.fault) }
    ensures ready { OnOk result (IsReady L.nodes L.are_at_rest world.old.homes.nodes kept.new) }
{
    world.find_busy(&mut kept.busy)?;
    run_busy(setting, world, kept)
}

/// One cycle. Where a fork pays, the nodes advance in threads, below one shared word, and what is committed goes through
/// lanes; where there are workers, they take the nodes' turns of the advance and steal them from each other. Else all is done
/// on the calling thread, without a word or lanes. After a refusal the world is spent.
pub fn cycle<R: Threads + Sync, M: SimulationModel, L: Lanes, G: Gate>(
    setting: &Setting<R, G>,
    world: &mut World<M>,
    kept: &mut Kept<L>,
) -> Result<Bucket, OutOfMemory>
    requires workers { AreWorkers setting.now.workers }
    requires can { CanCycle (M.meaning world.old.model) world.old }
    requires ready { world.old.is_spent ≡ false → IsReady L.nodes L.are_at_rest world.old.homes.nodes kept.old }
    ensures bucket { IfOk result (IsBucketOf M.meaning world.old) }
    ensures stands { OnOk result (StandsAfter M.meaning world.old world.new) }
    ensures carried { OnOk result (CarriesOn M.meaning world.old world.new) }
    ensures work { OnOk result (AllRise M.meaning setting.now.ahead world.old.nodes world.new.nodes) }
    ensures made { IsSameWorld world.old world.new }
    ensures fault { IfOk result (λ bucket. world.new.fault ≡ bucket.fault) }
    ensures ready { OnOk result (IsReady L.nodes L.are_at_rest world.old.homes.nodes kept.new) }
    ensures spent { OnErr result (world.new.is_spent ≡ true) }
    ensures cycled { HasCycled M.meaning world.old result world.new }
{
    if world.is_spent() {
        return Err(OutOfMemory);
    }
    match run_cycle(setting, world, kept) {
        Ok(bucket) => Ok(bucket),
        Err(refused) => {
            world.spend();
            Err(refused)
        }
    }
}
