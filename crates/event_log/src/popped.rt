//! An event that is taken back.
ghost use Rattle.std.specs.Prelude.{◌≡◌, ◌<◌, ◌≤◌, ◌^◌, length, slice_get, IfSome, IfNone, Some, None};
ghost use Rattle.event_key.specs.declared.key.Key.{Key};
ghost use Rattle.event_key.specs.declared.stamp.TheConstants.{NO_STAMP};
ghost use Rattle.key_order.specs.Stamps.{least_stamp};
ghost use Rattle.model_core.specs.declared.note.Note.{Note};
ghost use Rattle.object_log.specs.declared.done.Verdict.TheVariants.{Noted, Failed};
ghost use Rattle.event_log.specs.Popping.{TakesLast};

use crate::outbox::Outbox;
use event_chain::Chain;
use event_key::NO_STAMP;
use model_core::{Event, Note, Part, RecordBuffer};
use object_log::Verdict;

/// Messages that are taken back, and the least of their stamps, or `NO_STAMP`.
#[derive(Drop)]
pub struct Taken {
    pub sends: Chain<Event>,
    pub least: u64,
    ghost least_is: { least ≡ least_stamp NO_STAMP sends },
}

/// Takes so many messages back, those that were put in last, and answers them in the order in which they were.
#[inline(always)]
pub fn take_sends(outbox: &mut Outbox, sends: u32) -> Taken
    requires { sends ≤ length outbox.old.sent }
    ensures taken { TakesLast outbox.old.sent outbox.new.sent sends result.sends }
    ensures nodes { outbox.new.nodes ≡ outbox.old.nodes }
{
    let mut taken = Chain::new();
    let mut least = NO_STAMP;
    for _ in 0..sends {
        let message = outbox.pop();
        least = least.min(message.get().key.stamp);
        taken.push_front(message);
    }
    Taken {
        sends: taken,
        least,
    }
}

/// What came of the event at a place, which failed if there is a code, and else has a record there.
#[inline(always)]
pub fn verdict_at(told: &RecordBuffer, place: usize, fault: Option<u32>) -> Verdict
    requires { IfNone fault (place < length told.now.items) }
    ensures failed { IfSome fault (λ code. result ≡ Failed code) }
    ensures noted { IfNone fault ((t : Key × Note) × (slice_get told.now.items place ≡ Some t) × (result ≡ Noted t.1)) }
{
    if let Some(code) = fault {
        return Verdict::Failed(code);
    }
    let (_key, parts) = told.at(place);
    Verdict::Noted(note_of(parts))
}

/// A note of these parts.
fn note_of(parts: &[Part]) -> Note
    requires { length parts.now ≤ 4 }
    ensures { result ≡ parts.now }
{
    let mut note = Note::none();
    for part in parts {
        note.add(*part);
    }
    note
}
