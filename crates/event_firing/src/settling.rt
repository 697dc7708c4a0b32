//! What an event comes to.
ghost use Rattle.std.specs.Prelude.{◌≡◌, ◌<◌, ◌^◌, IfOk, IsTrue};
ghost use Rattle.event_key.specs.Stamps.{time_part};
ghost use Rattle.model_core.specs.Effects.{outcome_by};
ghost use Rattle.event_firing.specs.Settling.{settled};

use crate::sending::has_endless_chain;
use model_core::model::Model;
use model_core::{Cells, ENDLESS_CHAIN, Effect, Ending, Event, OutOfMemory};
use random_streams::Stream;

/// What an event comes to at an object with these cells, written into a sheet: the model's fault first, then the fault
/// of a chain without end in one tick, else the model's effect.
#[inline(always)]
pub fn settle<M: Model>(
    model: &M,
    words: &mut Stream,
    cells: &Cells,
    event: &Event,
    sheet: &mut Effect,
) -> Result<Ending, OutOfMemory>
    requires object { event.now.key.dest < (M.meaning model.now).objects }
    requires lawful { IsTrue ((M.meaning model.now).lawful event.now.key.dest cells.now.contents) }
    requires time { time_part event.now.key.stamp < 2 ^ 46 }
    ensures { IfOk result (λ ending. outcome_by ending sheet.new
        ≡ settled event.now.key.stamp ((M.meaning model.now).effect event.now.key.dest cells.now.contents event.now)) }
{
    match model.respond(words, event.key.dest, cells, event, sheet)? {
        Ending::Goes if has_endless_chain(event.key.stamp, sheet.sends.as_slice()) => {
            Ok(Ending::Fails(ENDLESS_CHAIN))
        }
        ending => Ok(ending),
    }
}
