//! Nodes whose turns workers take and steal.
ghost use Rattle.std.specs.Prelude.{◌≤◌, IfOk};
ghost use Rattle.steal_pool.specs.declared.worker.TheConstants.{MOST_WORKERS};
ghost use Rattle.node_team.specs.Forks.{CanGo};
ghost use Rattle.node_team.specs.Turns.{AllCanGo, AllHaveGone, HasGone};

use crate::gate::Gate;
use crate::seating::{Seated, advance_seated};
use crate::setting::Setting;
use horizon_word::HorizonWord;
use model_core::OutOfMemory;
use model_core::model::Model as SimulationModel;
use std::thread::Threads;
use steal_pool::run_each;

/// Advances each node, by so many workers, 1 to 64, each in a thread of its own, the calling one among them. A node's
/// advance is one turn: a worker that has done its own turns steals those of others. After a refusal the nodes are gone.
pub fn advance_by<R: Threads + Sync, M: SimulationModel, G: Gate>(
    setting: &Setting<R, G>,
    word: &HorizonWord,
    workers: u32,
    all: Vec<Seated<M>>,
) -> Result<Vec<Seated<M>>, OutOfMemory>
    requires workers { (1 ≤ workers) × (workers ≤ MOST_WORKERS) }
    requires can { AllCanGo M.meaning word.now all.items }
    ensures { IfOk result (λ now. AllHaveGone M.meaning word.now setting.now.ahead all.items now.items) }
{
    let turn = |seated: &mut Seated<M>|
        requires { CanGo M.meaning word.now seated.old.node seated.old.seat }
        ensures { HasGone M.meaning word.entry.now setting.entry.now.ahead seated.old seated.new }
    { advance_seated(setting, word, seated) };
    run_each(setting.rt, setting.alloc, all, workers, &turn)
}
