//! The initial events.
ghost use Rattle.std.specs.Prelude.{◌≡◌, IfOk, map};
ghost use Rattle.std.specs.List.{range_with_len};
ghost use Rattle.model_core.specs.Meaning.{MeaningLaws};
ghost use Rattle.key_order.specs.Pending.{in_order};
ghost use Rattle.sim_spec.specs.State.{start_event};

use event_firing::first_event;
use model_core::OutOfMemory;
use model_core::model::Model as SimulationModel;
use std::alloc::Global;
use tick_queue::TickQueue;

/// A queue of the initial events. It is refused where memory runs out.
pub fn first_events<M: SimulationModel>(alloc: Global, model: &M) -> Result<TickQueue, OutOfMemory>
    requires { MeaningLaws (M.meaning model.now) }
    ensures pending { IfOk result (λ queue. queue.pending
        ≡ in_order (map (start_event (M.meaning model.now)) (range_with_len 0 (M.meaning model.now).starts))) }
{
    let mut queue = TickQueue::new(alloc)?;
    let starts = model.starts();
    queue.reserve(starts as usize)?;
    for i in 0..starts {
        queue.push(first_event(model, i))?;
    }
    Ok(queue)
}
