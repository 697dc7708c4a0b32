//! The patience of a job that waits may be at its end.
ghost use Rattle.std.specs.Prelude.{◌≡◌, ◌<◌, ◌≤◌, ◌+◌, ◌^◌, ◌++◌, ◌∷◌, [], true, length, slice_index};
ghost use Rattle.model_core.specs.Effects.{blank};
ghost use Rattle.shop_model.specs.declared.class.TheConstants.{MOST_STEPS};
ghost use Rattle.shop_model.specs.Entries.{HasEntry};
ghost use Rattle.shop_model.specs.Parts.{IsVisit};
ghost use Rattle.shop_model.specs.Routes.{HasJob};
ghost use Rattle.delta_exchange.specs.Changes.{line_of};
ghost use Rattle.shop_model.specs.Routes.{job_of};
ghost use Rattle.shop_model.specs.Stations.{jobs_line};
ghost use Rattle.shop_model.specs.StationEffects.{tire_effect, tires, renege_job, renege_effect};

use crate::job::Job;
use crate::levels::{EMPTY, Entry, Level};
use crate::site::told;
use crate::station::WAITING;
use crate::station_event::StationEvent;
use crate::step::{Step, Visit};
use model_core::{Change, Effect, RENEGED_WORD};

impl StationEvent<'_> {
    /// The job whose patience ends now goes away, and leaves its place empty.
    #[tactic(auto, unfolding(crate::specs::StationEffects::tire_effect))]
    pub(crate) fn tire(&self, sheet: &mut Effect)
        requires { sheet.old ≡ blank }
        ensures { let at = self.now in
            sheet.new ≡ tire_effect at.site at.routes.now at.station.now at.cells.now.contents at.event.now }
    {
        let entry = self.event.a;
        if self.event.b >= u64::from(self.station.levels) {
            return;
        }
        let level = self.event.b as u32;
        let gone = self.cells.word(self.station.gone(level));
        if entry >= gone && self.tires(level, entry - gone) {
            let place = (entry - gone) as usize;
            self.give_up(Entry { level, place }, sheet);
        }
    }

    /// Whether the job at a place of a level waits until now at most.
    #[tactic(auto, unfolding(crate::specs::StationEffects::tires))]
    fn tires(&self, level: u32, place: u64) -> bool
        requires { level < self.now.station.now.levels }
        ensures tires { result ≡ tires self.now.site self.now.cells.now.contents level place }
        ensures within { result ≡ true → place < length (line_of self.now.cells.now.contents (jobs_line level)) }
    {
        let lines = Level::at(level);
        place < self.cells.line_len(lines.jobs) as u64
            && self.cells.line_at(lines.jobs, place as usize) < EMPTY
            && self.cells.line_at(lines.until, place as usize) == self.site.tick
    }

    /// The job of an entry goes away.
    fn give_up(&self, entry: Entry, sheet: &mut Effect)
        requires entry { HasEntry self.now.station.now self.now.cells.now.contents entry }
        requires blank { sheet.old ≡ blank }
        ensures { let at = self.now in
            sheet.new ≡ renege_job at.site at.routes.now entry.level entry.place at.cells.now.contents
            (job_of at.routes.now (slice_index (line_of at.cells.now.contents (jobs_line entry.level)) entry.place)) }
    {
        let jobs = Level::at(entry.level).jobs;
        if let Some(job) = self.routes.job(self.cells.line_at(jobs, entry.place)) {
            if let Some(Step::Visit(visit)) = self.routes.step(job.class, job.step) {
                self.renege(entry, visit, job, sheet);
            }
        }
    }

    /// A job that waited goes away, and leaves its place empty.
    #[tactic(auto, unfolding(crate::specs::StationEffects::renege_effect))]
    fn renege(&self, entry: Entry, visit: &Visit, job: Job, sheet: &mut Effect)
        requires entry { HasEntry self.now.station.now self.now.cells.now.contents entry }
        requires visit { IsVisit self.now.routes.now.stations MOST_STEPS visit.now }
        requires job { HasJob self.now.routes.now job }
        requires blank { sheet.old ≡ blank }
        ensures { let at = self.now in
            sheet.new ≡ renege_effect at.site at.routes.now entry.level entry.place visit.now job at.cells.now.contents }
    {
        let lines = Level::at(entry.level);
        let birth = self.cells.line_at(lines.births, entry.place);
        let since = self.cells.line_at(lines.since, entry.place);
        sheet.changes.push(Change::Set {
            word: WAITING,
            value: self.cells.word(WAITING).saturating_sub(1),
        });
        sheet.changes.push(Change::Flip {
            line: lines.jobs,
            place: entry.place as u64,
        });
        sheet.sends.push(self.routes.to(job, birth, visit.away, 0));
        sheet.note = told(RENEGED_WORD, job.id, self.site.tick.saturating_sub(since));
    }
}
