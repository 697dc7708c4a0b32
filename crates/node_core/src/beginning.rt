//! The logs of a node at the start.
ghost use Rattle.std.specs.Prelude.{◌≡◌, ◌<◌, ◌++◌, ◌∷◌, [], length, IfOk, OnOk, None};
ghost use Rattle.object_log.specs.EventLogs.{state_in};
ghost use Rattle.node_core.specs.NewLogs.{AreFirst};

use crate::homes::Homes;
use event_log::NodeLog;
use model_core::OutOfMemory;
use model_core::model::{Model as SimulationModel, keeps_laws};
use std::alloc::Global;

/// Puts the objects of a node into its log, which has none. Answers the place of each.
pub fn first_places<M: SimulationModel>(
    alloc: Global,
    model: &M,
    number: u32,
    homes: &Homes,
    log: &mut NodeLog,
) -> Result<Vec<u32>, OutOfMemory>
    requires known { length homes.now.homes ≡ (M.meaning model.now).objects }
    requires none { AreFirst (M.meaning model.now) homes.now number 0 log.old [] 0 }
    ensures { IfOk result (λ places. AreFirst (M.meaning model.now) homes.now number (M.meaning model.now).objects log.new places.items
        (length log.new.log.objects)) }
{
    let mut places = Vec::with_capacity(alloc, homes.objects() as usize)?;
    put_first(alloc, model, number, homes, log, &mut places)?;
    Ok(places)
}

/// Puts the objects of a node into its log, which has none, and the place of each into a list.
fn put_first<M: SimulationModel>(
    alloc: Global,
    model: &M,
    number: u32,
    homes: &Homes,
    log: &mut NodeLog,
    places: &mut Vec<u32>,
) -> Result<(), OutOfMemory>
    requires known { length homes.now.homes ≡ (M.meaning model.now).objects }
    requires none { AreFirst (M.meaning model.now) homes.now number 0 log.old places.old.items 0 }
    ensures { OnOk result (AreFirst (M.meaning model.now) homes.now number (M.meaning model.now).objects log.new places.new.items
        (length log.new.log.objects)) }
{
    keeps_laws(model);
    let mut here = 0;
    for object in 0..model.objects() {
        places.push(here)?;
        if homes.home(object) == number {
            put_object(alloc, model, object, log)?;
            here += 1;
        }
    }
    Ok(())
}

/// Puts an object that isn't there into a log, behind the others, with its first cells.
fn put_object<M: SimulationModel>(
    alloc: Global,
    model: &M,
    object: u32,
    log: &mut NodeLog,
) -> Result<(), OutOfMemory>
    requires object { object < (M.meaning model.now).objects }
    requires away { state_in log.old.log.objects object ≡ None }
    ensures put { OnOk result (log.new.log.objects ≡ log.old.log.objects
        ++ (record { object = object; state = record { cells = (M.meaning model.now).first object; sent = 0 } }) ∷ []) }
    ensures same { log.new ≡ record log.old { log = record log.old.log { objects = log.new.log.objects } } }
{
    let cells = model.first_cells(alloc, object)?;
    log.add(object, cells, 0)
}
