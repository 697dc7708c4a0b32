//! A job comes to a station.
ghost use Rattle.std.specs.Prelude.{◌≡◌, ◌<◌, ◌≤◌, ◌+◌, ◌^◌, ◌++◌, ◌∷◌, [], IsTrue, length};
ghost use Rattle.model_core.specs.Effects.{blank};
ghost use Rattle.shop_model.specs.declared.class.TheConstants.{MOST_STEPS};
ghost use Rattle.shop_model.specs.declared.job.TheConstants.{IDS};
ghost use Rattle.shop_model.specs.Parts.{IsVisit};
ghost use Rattle.shop_model.specs.Routes.{HasJob, step_at};
ghost use Rattle.model_core.specs.Places.{place_changes};
ghost use Rattle.random_streams.specs.Delays.{is_delay_law};
ghost use Rattle.std.specs.Option.{ForSome};
ghost use Rattle.shop_model.specs.Sites.{place_of, words_at, drawn_or};
ghost use Rattle.shop_model.specs.Stations.{counts_of, spare_of};
ghost use Rattle.shop_model.specs.StationEffects.{come_effect, free_effect, arrive_effect, take_effect, wait_effect, until_of, tire_sent};

use crate::counts::Counts;
use crate::job::{BirthCode, Job, JobCode};
use crate::levels::{Level, NEVER};
use crate::own_event::OwnEvent;
use crate::site::told;
use crate::station::{HELD, WAITING};
use crate::station_event::StationEvent;
use crate::step::{Step, Visit};
use model_core::{Change, Effect, FREED_WORD, LOST_WORD, TAKEN_WORD, WAITING_WORD};
use random_streams::Stream;

impl StationEvent<'_> {
    /// A job comes that stands here at its step.
    pub(crate) fn come(&self, words: &mut Stream, job: Job, sheet: &mut Effect)
        requires job { HasJob self.now.routes.now job }
        requires blank { sheet.old ≡ blank }
        ensures { let at = self.now in
            sheet.new ≡ come_effect at.site at.routes.now at.station.now (step_at at.routes.now job.class job.step) job
            at.cells.now.contents at.event.now }
    {
        match self.routes.step(job.class, job.step) {
            Some(Step::Visit(visit)) => self.arrive(words, visit, job, sheet),
            Some(Step::Free { .. }) => self.free(job, sheet),
            _ => {}
        }
    }

    /// The job gives a server back, and goes on.
    #[tactic(auto, unfolding(crate::specs::StationEffects::free_effect))]
    fn free(&self, job: Job, sheet: &mut Effect)
        requires job { HasJob self.now.routes.now job }
        requires step { job.step < MOST_STEPS }
        requires blank { sheet.old ≡ blank }
        ensures { let at = self.now in
            sheet.new ≡ free_effect at.site at.routes.now at.station.now job at.cells.now.contents at.event.now }
    {
        let counts = Counts::of(self.cells);
        sheet.sends.push(self.routes.onward(job, self.event.b));
        if counts.held == 0 {
            return;
        }
        let held = counts.held - 1;
        sheet.changes.push(Change::Set {
            word: HELD,
            value: held,
        });
        let counts = Counts { held, ..counts };
        counts.call(self.station.most, self.site, sheet);
        sheet.note = told(FREED_WORD, job.id, counts.waiting);
    }

    /// The job is taken, waits, or finds no place.
    #[tactic(auto, unfolding(crate::specs::StationEffects::arrive_effect, crate::specs::StationEffects::lose_effect))]
    fn arrive(&self, words: &mut Stream, visit: &Visit, job: Job, sheet: &mut Effect)
        requires job { HasJob self.now.routes.now job }
        requires step { job.step < MOST_STEPS }
        requires visit { IsVisit self.now.routes.now.stations MOST_STEPS visit.now }
        requires blank { sheet.old ≡ blank }
        ensures { let at = self.now in
            sheet.new ≡ arrive_effect at.site at.routes.now at.station.now visit.now job at.cells.now.contents at.event.now }
    {
        let counts = Counts::of(self.cells);
        let spare = counts.spare(self.station.most);
        if counts.waiting == 0 && spare > 0 {
            self.take(words, visit, job, sheet);
        } else if counts.waiting < u64::from(self.station.line) + spare {
            let priority = self.routes.class(job.class).priority;
            self.wait(words, visit, self.station.level_of(priority), job, sheet);
        } else {
            sheet
                .sends
                .push(self.routes.to(job, self.event.b, visit.full, 0));
            sheet.note = told(LOST_WORD, job.id, counts.waiting);
        }
    }

    /// A server begins the job at once.
    #[tactic(auto, unfolding(crate::specs::StationEffects::take_effect))]
    fn take(&self, words: &mut Stream, visit: &Visit, job: Job, sheet: &mut Effect)
        requires job { HasJob self.now.routes.now job }
        requires step { job.step < MOST_STEPS }
        requires visit { IsVisit self.now.routes.now.stations MOST_STEPS visit.now }
        requires spare { 0 < spare_of self.now.station.now.most (counts_of self.now.cells.now.contents) }
        requires blank { sheet.old ≡ blank }
        ensures { let at = self.now in
            sheet.new ≡ take_effect at.site at.routes.now at.station.now visit.now job at.cells.now.contents at.event.now }
    {
        let counts = Counts::of(self.cells);
        let service = visit.service(words, self.site, self.cells, sheet);
        let birth = BirthCode { word: self.event.b }.birth();
        let counts = self.begin(visit, service, job, birth, counts, sheet);
        sheet.note = told(TAKEN_WORD, job.id, counts.busy(self.station.most));
    }

    /// The job goes to the end of its level.
    #[tactic(auto, unfolding(crate::specs::StationEffects::wait_effect))]
    fn wait(&self, words: &mut Stream, visit: &Visit, level: u32, job: Job, sheet: &mut Effect)
        requires patience { ForSome visit.now.patience (λ law. IsTrue (is_delay_law law)) }
        requires level { level < self.now.station.now.levels }
        requires id { job.id < IDS }
        requires step { job.step < MOST_STEPS }
        requires blank { sheet.old ≡ blank }
        ensures { let at = self.now in
            sheet.new ≡ wait_effect at.site visit.now level job at.cells.now.contents at.event.now }
    {
        let waiting = self.cells.word(WAITING) + 1;
        let until = self.patience(words, visit, level, sheet);
        let lines = Level::at(level);
        sheet.changes.push(Change::Set {
            word: WAITING,
            value: waiting,
        });
        sheet.changes.push(Change::Push {
            line: lines.jobs,
            value: JobCode::of(job.step, job.id).word,
        });
        sheet.changes.push(Change::Push {
            line: lines.births,
            value: BirthCode { word: self.event.b }.birth(),
        });
        sheet.changes.push(Change::Push {
            line: lines.since,
            value: self.site.tick,
        });
        sheet.changes.push(Change::Push {
            line: lines.until,
            value: until,
        });
        sheet.note = told(WAITING_WORD, job.id, waiting);
    }

    /// Until when a job waits at most that goes to the end of a level, and an event for the end of its patience.
    fn patience(&self, words: &mut Stream, visit: &Visit, level: u32, sheet: &mut Effect) -> u64
        requires patience { ForSome visit.now.patience (λ law. IsTrue (is_delay_law law)) }
        requires level { level < self.now.station.now.levels }
        requires blank { sheet.old ≡ blank }
        ensures until { result ≡ until_of self.now.site self.now.cells.now.contents visit.now.patience }
        ensures few { length sheet.new.changes ≤ 1 }
        ensures sheet { let cells = self.now.cells.now.contents in
            sheet.new ≡ record blank {
              changes = place_changes (place_of cells) (drawn_or 0 (words_at self.now.site (place_of cells)) visit.now.patience).1;
              sends = tire_sent self.now.site cells level visit.now.patience;
            } }
    {
        match &visit.patience {
            Some(law) => {
                let patience = self.site.draw(words, self.cells, law, sheet);
                let entries = self.cells.line_len(Level::at(level).jobs) as u64;
                let gone = self.cells.word(self.station.gone(level));
                let end = OwnEvent::Tire {
                    entry: gone.wrapping_add(entries),
                    level,
                };
                sheet.sends.push(self.site.to_self(patience, end));
                self.site.tick + patience
            }
            None => NEVER,
        }
    }
}
