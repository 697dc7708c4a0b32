//! How a cycle is closed: the nodes advance, in threads where that pays.
ghost use Rattle.std.specs.Prelude.{IfOk};
ghost use Rattle.sim_spec.specs.State.{State};
ghost use Rattle.cycle_core.specs.Busy.{NamesBusy};
ghost use Rattle.cycle_core.specs.Worlds.{IsSameWorld, StandsAt};
ghost use Rattle.node_team.specs.Closes.{HasClosed};
ghost use Rattle.node_team.specs.Handings.{AreWorkers};

use crate::alone::close_alone;
use crate::gate::Gate;
use crate::handing::Handing;
use crate::paying::Load;
use crate::running::advance_world;
use crate::setting::Setting;
use cycle_core::World;
use horizon_word::WordSeat;
use model_core::OutOfMemory;
use model_core::model::Model as SimulationModel;
use std::thread::Threads;

/// Advances each node of a world below one word and closes the cycle. Answers the bound at which it is closed.
fn close_together<R: Threads + Sync, M: SimulationModel, G: Gate>(
    setting: &Setting<R, G>,
    world: &mut World<M>,
    load: &Load,
    seats: &mut Vec<WordSeat>,
) -> Result<u64, OutOfMemory>
    requires workers { AreWorkers setting.now.workers }
    requires stands { (s : State) × StandsAt (M.meaning world.old.model) world.old s }
    ensures closed { IfOk result (HasClosed M.meaning setting.now.ahead world.old world.new) }
    ensures made { IsSameWorld world.old world.new }
{
    let handing = Handing::of(load.advance_threads(), setting.workers);
    advance_world(setting, world, handing, seats)?;
    world.close_cycle(setting.alloc)
}

/// Advances each node of a world, of which these have events, and closes the cycle. If no fork pays, no seat is made. Answers
/// the bound at which it is closed. After a refusal the world has lost its nodes.
pub fn close_world<R: Threads + Sync, M: SimulationModel, G: Gate>(
    setting: &Setting<R, G>,
    world: &mut World<M>,
    load: &Load,
    seats: &mut Vec<WordSeat>,
    busy: &[usize],
) -> Result<u64, OutOfMemory>
    requires workers { AreWorkers setting.now.workers }
    requires stands { (s : State) × StandsAt (M.meaning world.old.model) world.old s }
    requires busy { NamesBusy world.old.nodes busy.now }
    ensures closed { IfOk result (HasClosed M.meaning setting.now.ahead world.old world.new) }
    ensures made { IsSameWorld world.old world.new }
{
    if load.forks_nothing() {
        return close_alone(setting, world, busy);
    }
    close_together(setting, world, load, seats)
}
