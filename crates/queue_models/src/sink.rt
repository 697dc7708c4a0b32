//! Sinks: where jobs leave.
ghost use Rattle.std.specs.Prelude.{◌≡◌};
ghost use Rattle.model_core.specs.Effects.{blank, outcome_by};
ghost use Rattle.queue_models.specs.Sinks.{is_late, sink_effect};

use crate::site::told;
use event_key::time_of;
use model_core::{Effect, Ending, Event, LATE, LEFT_WORD};

/// What takes each job out of the network.
#[derive(Drop)]
pub struct Sink {
    /// The greatest age of a job, below 2^46, where there is one. A job that is older fails with code 3.
    pub due: Option<u64>,
}

impl Sink {
    /// A job leaves, at its age since it was born.
    #[tactic(auto, unfolding(crate::specs::Sinks::sink_effect))]
    pub(crate) fn react(&self, event: &Event, sheet: &mut Effect) -> Ending
        requires blank { sheet.old ≡ blank }
        ensures { outcome_by result sheet.new ≡ sink_effect self.now event.now }
    {
        let age = time_of(event.key.stamp).saturating_sub(event.b);
        if self.is_late(age) {
            return Ending::Fails(LATE);
        }
        sheet.note = told(LEFT_WORD, event.a, age);
        Ending::Goes
    }

    /// Whether a job of this age is late.
    fn is_late(&self, age: u64) -> bool
        ensures { result ≡ is_late self.now.due age }
    {
        match self.due {
            Some(due) => age > due,
            None => false,
        }
    }
}
