//! How a simulation begins.
ghost use Rattle.std.specs.Prelude.{◌≡◌, ◌<◌, IfOk, map};
ghost use Rattle.std.specs.List.{range_with_len};
ghost use Rattle.model_core.specs.Meaning.{MeaningLaws};
ghost use Rattle.sim_spec.specs.State.{first_object, start_event};

use crate::object::Object;
use event_key::{INITIAL, Key, stamp_of};
use model_core::model::Model as SimulationModel;
use model_core::{Event, OutOfMemory};
use std::alloc::Global;

/// The objects at the start.
pub fn first_objects<M: SimulationModel>(
    alloc: Global,
    model: &M,
) -> Result<Vec<Object>, OutOfMemory>
    ensures { IfOk result (λ objects. objects.items ≡ map (first_object (M.meaning model.now)) (range_with_len 0 (M.meaning model.now).objects)) }
{
    let mut objects = Vec::new(alloc);
    for object in 0..model.objects() {
        objects.push(Object::new(model.first_cells(alloc, object)?))?;
    }
    Ok(objects)
}

/// An initial event.
pub fn first_event<M: SimulationModel>(model: &M, i: u32) -> Event
    requires laws { MeaningLaws (M.meaning model.now) }
    requires inside { i < (M.meaning model.now).starts }
    ensures { result ≡ start_event (M.meaning model.now) i }
{
    let start = model.start(i);
    let key = Key {
        stamp: stamp_of(start.time, 0),
        rank: start.rank,
        dest: start.dest,
        src: INITIAL,
        serial: u64::from(i),
    };
    Event {
        key,
        kind: start.kind,
        a: start.a,
        b: start.b,
    }
}
