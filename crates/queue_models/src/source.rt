//! Sources: where jobs come from.
ghost use Rattle.std.specs.Prelude.{◌≡◌, ◌≤◌, IfOk, IsTrue};
ghost use Rattle.random_streams.specs.Laws.{is_drawable};
ghost use Rattle.model_core.specs.Effects.{blank, outcome_by};
ghost use Rattle.queue_models.specs.Sources.{is_source_cells, first_source_cells, idle_effect, last_effect, make_effect, source_effect, left_of};

use crate::site::{MAKE, ObjectEvent, Site, told};
use event_key::time_of;
use model_core::{Cells, Change, Effect, Ending, MADE_WORD, OutOfMemory, Send};
use random_streams::{Law, Stream};
use std::alloc::Global;

/// How many jobs a source makes at most.
pub const MOST_JOBS: u32 = 1_000_000;

/// What makes jobs. None is sent to it.
#[derive(Drop)]
pub struct Source<L> {
    /// When the first job is made, below 2^46.
    pub first: u64,
    /// How many ticks after it each further one is made.
    pub every: Law,
    /// How many jobs it makes, 1 to `MOST_JOBS`.
    pub count: u32,
    /// Where each job goes.
    pub next: L,
}

impl<L: Drop> Source<L> {
    /// This source, with another object to which it sends.
    pub fn sending_to<M>(self, next: M) -> Source<M>
        ensures { result ≡ record { first = self.first; every = self.every; count = self.count; next = next } }
    {
        Source {
            first: self.first,
            every: self.every,
            count: self.count,
            next,
        }
    }
}

impl Source<u32> {
    /// The cells at the start: no job is made, and all are left.
    pub(crate) fn first_cells(&self, alloc: Global) -> Result<Cells, OutOfMemory>
        ensures { IfOk result (λ cells. cells.contents ≡ first_source_cells self.now.count) }
    {
        Cells::of_words(alloc, &[0, 0, u64::from(self.count)])
    }

    /// Whether the jobs that are made and those that are left are all.
    pub(crate) fn is_lawful(&self, cells: &Cells) -> bool
        ensures { result ≡ is_source_cells self.now.count cells.now.contents }
    {
        let count = u64::from(self.count);
        if cells.words() != 3 || cells.lines() != 0 {
            return false;
        }
        match cells.word(1).checked_add(cells.word(2)) {
            Some(jobs) => jobs == count,
            None => false,
        }
    }

    /// Makes the next job, where one is left.
    #[tactic(auto, unfolding(crate::specs::Sources::source_effect))]
    pub(crate) fn react(&self, words: &mut Stream, at: &ObjectEvent, sheet: &mut Effect) -> Ending
        requires every { IsTrue (is_drawable self.now.every) }
        requires cells { IsTrue (is_source_cells self.now.count at.now.cells.now.contents) }
        requires blank { sheet.old ≡ blank }
        ensures { outcome_by result sheet.new ≡ source_effect at.now.site self.now at.now.cells.now.contents at.now.event.now }
    {
        let time = time_of(at.event.key.stamp);
        match at.cells.word(2) {
            0 => self.idle(at.cells, sheet),
            1 => self.make_last(at.site, at.cells, time, sheet),
            _ => self.make(words, at, time, sheet),
        }
        Ending::Goes
    }

    /// No job is left.
    #[tactic(auto, unfolding(crate::specs::Sources::idle_effect))]
    fn idle(&self, cells: &Cells, sheet: &mut Effect)
        requires cells { IsTrue (is_source_cells self.now.count cells.now.contents) }
        requires blank { sheet.old ≡ blank }
        ensures { sheet.new ≡ idle_effect cells.now.contents }
    {
        sheet.note = told(MADE_WORD, cells.word(1), 0);
    }

    /// Makes the last job.
    #[tactic(auto, unfolding(crate::specs::Sources::last_effect))]
    fn make_last(&self, site: Site, cells: &Cells, time: u64, sheet: &mut Effect)
        requires cells { IsTrue (is_source_cells self.now.count cells.now.contents) }
        requires blank { sheet.old ≡ blank }
        ensures { sheet.new ≡ last_effect site self.now cells.now.contents time }
    {
        let job = cells.word(1) + 1;
        sheet.changes.push(Change::Set {
            word: 1,
            value: job,
        });
        sheet.changes.push(Change::Set { word: 2, value: 0 });
        sheet.sends.push(site.job_to(self.next, 0, job, time));
        sheet.note = told(MADE_WORD, job, 0);
    }

    /// Makes a job, and will make another after a drawn delay.
    #[tactic(auto, unfolding(crate::specs::Sources::make_effect))]
    fn make(&self, words: &mut Stream, at: &ObjectEvent, time: u64, sheet: &mut Effect)
        requires every { IsTrue (is_drawable self.now.every) }
        requires cells { IsTrue (is_source_cells self.now.count at.now.cells.now.contents) }
        requires left { 1 ≤ left_of at.now.cells.now.contents }
        requires blank { sheet.old ≡ blank }
        ensures { sheet.new ≡ make_effect at.now.site self.now at.now.cells.now.contents time }
    {
        let job = at.cells.word(1) + 1;
        let left = at.cells.word(2) - 1;
        let delay = at.draw(words, &self.every, sheet);
        sheet.changes.push(Change::Set {
            word: 1,
            value: job,
        });
        sheet.changes.push(Change::Set {
            word: 2,
            value: left,
        });
        sheet.sends.push(at.site.job_to(self.next, 0, job, time));
        sheet.sends.push(Send {
            dest: at.site.object,
            delay,
            kind: MAKE,
            a: 0,
            b: 0,
            rank: at.site.rank,
        });
        sheet.note = told(MADE_WORD, job, left);
    }
}
