//! Delays: where jobs are held for a while.
ghost use Rattle.std.specs.Prelude.{◌≡◌, IsTrue};
ghost use Rattle.random_streams.specs.Laws.{is_drawable};
ghost use Rattle.model_core.specs.Effects.{blank, outcome_by};
ghost use Rattle.queue_models.specs.Sites.{is_plain_cells};
ghost use Rattle.queue_models.specs.Delays.{delay_effect};

use crate::site::{ObjectEvent, told};
use model_core::{Effect, Ending, HELD_WORD};
use random_streams::{Law, Stream};

/// What holds each job for a while.
#[derive(Drop)]
pub struct Delay<L> {
    /// How long it holds a job.
    pub delay: Law,
    /// Where each job goes then.
    pub next: L,
}

impl<L: Drop> Delay<L> {
    /// This delay, with another object to which it sends.
    pub fn sending_to<M>(self, next: M) -> Delay<M>
        ensures { result ≡ record { delay = self.delay; next = next } }
    {
        Delay {
            delay: self.delay,
            next,
        }
    }
}

impl Delay<u32> {
    /// Holds a job.
    #[tactic(auto, unfolding(crate::specs::Delays::delay_effect))]
    pub(crate) fn react(&self, words: &mut Stream, at: &ObjectEvent, sheet: &mut Effect) -> Ending
        requires delay { IsTrue (is_drawable self.now.delay) }
        requires cells { IsTrue (is_plain_cells at.now.cells.now.contents) }
        requires blank { sheet.old ≡ blank }
        ensures { outcome_by result sheet.new ≡ delay_effect at.now.site self.now at.now.cells.now.contents at.now.event.now }
    {
        let delay = at.draw(words, &self.delay, sheet);
        let job = at.site.job_to(self.next, delay, at.event.a, at.event.b);
        sheet.sends.push(job);
        sheet.note = told(HELD_WORD, at.event.a, delay);
        Ending::Goes
    }
}
