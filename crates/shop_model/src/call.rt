//! A server calls a job that waits.
ghost use Rattle.std.specs.Prelude.{◌≡◌, ◌<◌, ◌≤◌, ◌+◌, ◌^◌, ◌++◌, ◌∷◌, [], ◌%◌, length, slice_index};
ghost use Rattle.model_core.specs.Effects.{blank};
ghost use Rattle.shop_model.specs.declared.class.TheConstants.{MOST_STEPS};
ghost use Rattle.shop_model.specs.declared.station.TheConstants.{MOST_LEVELS};
ghost use Rattle.shop_model.specs.Entries.{HasEntry};
ghost use Rattle.shop_model.specs.Parts.{IsVisit};
ghost use Rattle.shop_model.specs.Routes.{HasJob};
ghost use Rattle.shop_model.specs.Routes.{job_of};
ghost use Rattle.shop_model.specs.Stations.{counts_of, spare_of, jobs_line, births_line, since_line, until_line};
ghost use Rattle.shop_model.specs.StationEffects.{call_effect, first_level, called_place, out_changes};
ghost use Rattle.shop_model.specs.StationEffects.{entry_effect, pass_effect, begin_effect, begin_job};
ghost use Rattle.delta_exchange.specs.declared.change.Change.TheVariants.{Set, Pop, Unpush};

use crate::counts::Counts;
use crate::job::Job;
use crate::levels::{EMPTY, Entry, Level};
use crate::own_event::OwnEvent;
use crate::site::told;
use crate::station::{Order, WAITING};
use crate::station_event::StationEvent;
use crate::step::{Step, Visit};
use model_core::{CALLED_WORD, Cells, Change, Effect};
use random_streams::Stream;

impl StationEvent<'_> {
    /// Calls the next entry of the first level that has one, where a server could begin a job.
    #[tactic(auto, unfolding(crate::specs::StationEffects::call_effect))]
    pub(crate) fn call(&self, words: &mut Stream, sheet: &mut Effect)
        requires { sheet.old ≡ blank }
        ensures { let at = self.now in sheet.new ≡ call_effect at.site at.routes.now at.station.now at.cells.now.contents }
    {
        let counts = Counts::of(self.cells);
        if counts.waiting > 0 && counts.spare(self.station.most) > 0 {
            let level = self.first_level();
            self.call_entry(words, level, sheet);
        }
    }

    /// Calls the next entry of a level.
    #[tactic(auto, unfolding(crate::specs::StationEffects::entry_effect, crate::specs::StationEffects::pass_effect))]
    fn call_entry(&self, words: &mut Stream, level: u32, sheet: &mut Effect)
        requires level { level < self.now.station.now.levels }
        requires spare { 0 < spare_of self.now.station.now.most (counts_of self.now.cells.now.contents) }
        requires blank { sheet.old ≡ blank }
        ensures { let at = self.now in sheet.new ≡ entry_effect at.site at.routes.now at.station.now level at.cells.now.contents }
    {
        let jobs = Level::at(level).jobs;
        let entries = self.cells.line_len(jobs);
        if entries == 0 {
            return;
        }
        let place = self.called_place(entries);
        let a = self.cells.line_at(jobs, place);
        if a >= EMPTY {
            self.go_out(level, sheet);
            sheet.sends.push(self.site.to_self(0, OwnEvent::Call));
            return;
        }
        self.call_job(words, Entry { level, place }, a, sheet);
    }

    /// The first level that has an entry, or the last one.
    fn first_level(&self) -> u32
        ensures level { result ≡ first_level self.now.station.now self.now.cells.now.contents }
        ensures within { result < self.now.station.now.levels }
    {
        for level in 0..self.station.levels - 1 {
            if self.cells.line_len(Level::at(level).jobs) > 0 {
                return level;
            }
        }
        self.station.levels - 1
    }

    /// The place of the entry that is called of so many.
    fn called_place(&self, entries: usize) -> usize
        requires { 0 < entries }
        ensures place { result ≡ called_place self.now.station.now.order entries }
        ensures within { result < entries }
    {
        match self.station.order {
            Order::Last => entries - 1,
            _ => 0,
        }
    }

    /// The entry that is called goes out.
    #[inline(always)]
    fn go_out(&self, level: u32, sheet: &mut Effect)
        requires level { level < self.now.station.now.levels }
        requires room { length sheet.old.changes ≤ 2 }
        ensures few { length sheet.new.changes ≤ 7 }
        ensures sheet { sheet.new ≡ record sheet.old {
          changes = sheet.old.changes ++ out_changes self.now.station.now.order self.now.cells.now.contents level;
        } }
    {
        match self.station.order {
            Order::Last => push_out_last(level, sheet),
            _ => push_out_first(level, self.cells, self.station.gone(level), sheet),
        }
    }

    /// A server begins the job of an entry.
    fn call_job(&self, words: &mut Stream, entry: Entry, a: u64, sheet: &mut Effect)
        requires entry { HasEntry self.now.station.now self.now.cells.now.contents entry }
        requires spare { 0 < spare_of self.now.station.now.most (counts_of self.now.cells.now.contents) }
        requires blank { sheet.old ≡ blank }
        ensures { let at = self.now in
            sheet.new ≡ begin_job at.site at.routes.now at.station.now entry.level entry.place at.cells.now.contents (job_of at.routes.now a) }
    {
        if let Some(job) = self.routes.job(a) {
            if let Some(Step::Visit(visit)) = self.routes.step(job.class, job.step) {
                self.begin_entry(words, entry, visit, job, sheet);
            }
        }
    }

    /// A server begins a job that waited.
    #[tactic(auto, unfolding(crate::specs::StationEffects::begin_effect))]
    fn begin_entry(
        &self,
        words: &mut Stream,
        entry: Entry,
        visit: &Visit,
        job: Job,
        sheet: &mut Effect,
    )
        requires entry { HasEntry self.now.station.now self.now.cells.now.contents entry }
        requires visit { IsVisit self.now.routes.now.stations MOST_STEPS visit.now }
        requires job { HasJob self.now.routes.now job }
        requires step { job.step < MOST_STEPS }
        requires spare { 0 < spare_of self.now.station.now.most (counts_of self.now.cells.now.contents) }
        requires blank { sheet.old ≡ blank }
        ensures { let at = self.now in
            sheet.new ≡ begin_effect at.site at.routes.now at.station.now entry.level entry.place visit.now job at.cells.now.contents }
    {
        let lines = Level::at(entry.level);
        let birth = self.cells.line_at(lines.births, entry.place);
        let since = self.cells.line_at(lines.since, entry.place);
        let counts = Counts::of(self.cells);
        let waiting = counts.waiting.saturating_sub(1);
        let service = visit.service(words, self.site, self.cells, sheet);
        sheet.changes.push(Change::Set {
            word: WAITING,
            value: waiting,
        });
        self.go_out(entry.level, sheet);
        let counts = Counts { waiting, ..counts };
        let counts = self.begin(visit, service, job, birth, counts, sheet);
        counts.call(self.station.most, self.site, sheet);
        sheet.note = told(CALLED_WORD, job.id, self.site.tick.saturating_sub(since));
    }
}

/// The last entry of a level goes out.
#[inline(always)]
fn push_out_last(level: u32, sheet: &mut Effect)
    requires level { level < MOST_LEVELS }
    requires room { length sheet.old.changes ≤ 2 }
    ensures few { length sheet.new.changes ≤ 7 }
    ensures sheet { sheet.new ≡ record sheet.old {
      changes = sheet.old.changes
          ++ Unpush (jobs_line level) ∷ Unpush (births_line level) ∷ Unpush (since_line level) ∷ Unpush (until_line level) ∷ [];
    } }
{
    let lines = Level::at(level);
    sheet.changes.push(Change::Unpush { line: lines.jobs });
    sheet.changes.push(Change::Unpush { line: lines.births });
    sheet.changes.push(Change::Unpush { line: lines.since });
    sheet.changes.push(Change::Unpush { line: lines.until });
}

/// The first entry of a level goes out, which this word counts.
#[inline(always)]
fn push_out_first(level: u32, cells: &Cells, word: u32, sheet: &mut Effect)
    requires level { level < MOST_LEVELS }
    requires word { word < length cells.now.contents.words }
    requires room { length sheet.old.changes ≤ 2 }
    ensures few { length sheet.new.changes ≤ 7 }
    ensures sheet { sheet.new ≡ record sheet.old {
      changes = sheet.old.changes
          ++ Pop (jobs_line level) ∷ Pop (births_line level) ∷ Pop (since_line level) ∷ Pop (until_line level)
          ∷ Set word ((slice_index cells.now.contents.words word + 1) % 2 ^ 64) ∷ [];
    } }
{
    let lines = Level::at(level);
    sheet.changes.push(Change::Pop { line: lines.jobs });
    sheet.changes.push(Change::Pop { line: lines.births });
    sheet.changes.push(Change::Pop { line: lines.since });
    sheet.changes.push(Change::Pop { line: lines.until });
    sheet.changes.push(Change::Set {
        word,
        value: cells.word(word).wrapping_add(1),
    });
}
