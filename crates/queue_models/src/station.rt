//! Stations: where jobs are served.
ghost use Rattle.std.specs.Prelude.{◌≡◌, ◌<◌, IfOk, IsTrue};
ghost use Rattle.random_streams.specs.Laws.{is_drawable};
ghost use Rattle.model_core.specs.Effects.{blank, outcome_by};
ghost use Rattle.queue_models.specs.Stations.{is_station_cells, first_station_cells, waiting_jobs, done_after, take_effect, wait_effect, lose_effect, arrival_outcome, serve_effect, free_effect, done_effect, station_effect};

use crate::site::{DONE, ObjectEvent, Site, told};
use model_core::{
    Cells, Change, DONE_WORD, Effect, Ending, Event, LINE_FULL, LOST_WORD, OutOfMemory, Send,
    TAKEN_WORD, WAITING_WORD,
};
use random_streams::{Law, Stream};
use std::alloc::Global;

/// The word that counts the busy servers.
pub const BUSY: u32 = 1;

/// The lines of the waiting jobs, and of when each was born.
pub const JOBS: u32 = 0;

const BIRTHS: u32 = 1;

/// How many servers a station has at most.
pub const MOST_SERVERS: u32 = 1_024;

/// How many jobs wait at a station at most.
pub const MOST_WAITING: u32 = 65_536;

/// Where jobs are served.
#[derive(Drop)]
pub struct Station<L> {
    /// How many servers it has, 1 to `MOST_SERVERS`, each of which serves one job at a time.
    pub servers: u32,
    /// How many jobs wait at most where no server is free, at most `MOST_WAITING`. They wait in order of arrival.
    pub line: u32,
    /// How long a service takes.
    pub service: Law,
    /// Whether a job that finds the line full fails with code 2. Else it is lost.
    pub strict: bool,
    /// Where each job goes that was served.
    pub next: L,
}

impl<L: Drop> Station<L> {
    /// This station, with another object to which it sends.
    pub fn sending_to<M>(self, next: M) -> Station<M>
        ensures { result ≡ record { servers = self.servers; service = self.service; line = self.line; strict = self.strict; next = next } }
    {
        Station {
            servers: self.servers,
            line: self.line,
            service: self.service,
            strict: self.strict,
            next,
        }
    }
}

/// The end of a job's service, which comes back to its station.
fn done_after(site: &Site, service: u64, job: u64, birth: u64) -> Send
    ensures { result ≡ done_after site.now service job birth }
{
    Send {
        dest: site.object,
        delay: service,
        kind: DONE,
        a: job,
        b: birth,
        rank: site.rank,
    }
}

impl Station<u32> {
    /// The cells at the start: no server is busy, and nobody waits.
    pub(crate) fn first_cells(&self, alloc: Global) -> Result<Cells, OutOfMemory>
        ensures { IfOk result (λ cells. cells.contents ≡ first_station_cells) }
    {
        let words = vec![in alloc; 0, 0]?;
        let lines = vec![in alloc; Vec::new(alloc), Vec::new(alloc)]?;
        Cells::new(alloc, words, lines)
    }

    /// Whether no more servers are busy and no more jobs wait than there may be.
    pub(crate) fn is_lawful(&self, cells: &Cells) -> bool
        ensures { result ≡ is_station_cells self.now.servers self.now.line cells.now.contents }
    {
        if cells.words() != 2 || cells.lines() != 2 {
            return false;
        }
        let waiting = cells.line_len(JOBS);
        waiting == cells.line_len(BIRTHS)
            && waiting <= self.line as usize
            && cells.word(BUSY) <= u64::from(self.servers)
    }

    /// A service is done, or a job arrives, whatever else the kind of the event.
    #[tactic(auto, unfolding(crate::specs::Stations::station_effect))]
    pub(crate) fn react(&self, words: &mut Stream, at: &ObjectEvent, sheet: &mut Effect) -> Ending
        requires service { IsTrue (is_drawable self.now.service) }
        requires cells { IsTrue (is_station_cells self.now.servers self.now.line at.now.cells.now.contents) }
        requires blank { sheet.old ≡ blank }
        ensures { outcome_by result sheet.new ≡ station_effect at.now.site self.now at.now.cells.now.contents at.now.event.now }
    {
        match at.event.kind {
            DONE => {
                self.done(words, at, sheet);
                Ending::Goes
            }
            _ => self.arrival(words, at, sheet),
        }
    }

    /// A job arrives: it is taken, waits, or finds the line full.
    #[tactic(auto, unfolding(crate::specs::Stations::arrival_outcome))]
    fn arrival(&self, words: &mut Stream, at: &ObjectEvent, sheet: &mut Effect) -> Ending
        requires service { IsTrue (is_drawable self.now.service) }
        requires cells { IsTrue (is_station_cells self.now.servers self.now.line at.now.cells.now.contents) }
        requires blank { sheet.old ≡ blank }
        ensures { outcome_by result sheet.new ≡ arrival_outcome at.now.site self.now at.now.cells.now.contents at.now.event.now }
    {
        if at.cells.word(BUSY) < u64::from(self.servers) {
            self.take(words, at, sheet);
        } else if at.cells.line_len(JOBS) < self.line as usize {
            self.wait(at.cells, at.event, sheet);
        } else if self.strict {
            return Ending::Fails(LINE_FULL);
        } else {
            self.lose(at.cells, at.event, sheet);
        }
        Ending::Goes
    }

    /// A free server takes the job.
    #[tactic(auto, unfolding(crate::specs::Stations::take_effect))]
    fn take(&self, words: &mut Stream, at: &ObjectEvent, sheet: &mut Effect)
        requires service { IsTrue (is_drawable self.now.service) }
        requires cells { IsTrue (is_station_cells self.now.servers self.now.line at.now.cells.now.contents) }
        requires blank { sheet.old ≡ blank }
        ensures { sheet.new ≡ take_effect at.now.site self.now at.now.cells.now.contents at.now.event.now }
    {
        let job = at.event;
        let service = at.draw(words, &self.service, sheet);
        sheet.changes.push(Change::Set {
            word: BUSY,
            value: at.cells.word(BUSY) + 1,
        });
        sheet
            .sends
            .push(done_after(&at.site, service, job.a, job.b));
        sheet.note = told(TAKEN_WORD, job.a, at.cells.line_len(JOBS) as u64);
    }

    /// The job goes to the end of the line.
    #[tactic(auto, unfolding(crate::specs::Stations::wait_effect))]
    fn wait(&self, cells: &Cells, event: &Event, sheet: &mut Effect)
        requires cells { IsTrue (is_station_cells self.now.servers self.now.line cells.now.contents) }
        requires blank { sheet.old ≡ blank }
        ensures { sheet.new ≡ wait_effect cells.now.contents event.now }
    {
        let waiting = cells.line_len(JOBS) as u64;
        sheet.changes.push(Change::Push {
            line: JOBS,
            value: event.a,
        });
        sheet.changes.push(Change::Push {
            line: BIRTHS,
            value: event.b,
        });
        sheet.note = told(WAITING_WORD, event.a, waiting + 1);
    }

    /// The job is turned away.
    #[tactic(auto, unfolding(crate::specs::Stations::lose_effect))]
    fn lose(&self, cells: &Cells, event: &Event, sheet: &mut Effect)
        requires cells { IsTrue (is_station_cells self.now.servers self.now.line cells.now.contents) }
        requires blank { sheet.old ≡ blank }
        ensures { sheet.new ≡ lose_effect cells.now.contents event.now }
    {
        sheet.note = told(LOST_WORD, event.a, cells.line_len(JOBS) as u64);
    }

    /// A job is done: the next one is served, or the server is free.
    #[tactic(auto, unfolding(crate::specs::Stations::done_effect))]
    fn done(&self, words: &mut Stream, at: &ObjectEvent, sheet: &mut Effect)
        requires service { IsTrue (is_drawable self.now.service) }
        requires cells { IsTrue (is_station_cells self.now.servers self.now.line at.now.cells.now.contents) }
        requires blank { sheet.old ≡ blank }
        ensures { sheet.new ≡ done_effect at.now.site self.now at.now.cells.now.contents at.now.event.now }
    {
        if at.cells.line_len(JOBS) > 0 {
            self.serve(words, at, sheet);
        } else {
            self.free(at, sheet);
        }
    }

    /// The server goes on with the job that has waited longest.
    #[tactic(auto, unfolding(crate::specs::Stations::serve_effect))]
    fn serve(&self, words: &mut Stream, at: &ObjectEvent, sheet: &mut Effect)
        requires service { IsTrue (is_drawable self.now.service) }
        requires cells { IsTrue (is_station_cells self.now.servers self.now.line at.now.cells.now.contents) }
        requires waiting { 0 < waiting_jobs at.now.cells.now.contents }
        requires blank { sheet.old ≡ blank }
        ensures { sheet.new ≡ serve_effect at.now.site self.now at.now.cells.now.contents at.now.event.now }
    {
        let (cells, event) = (at.cells, at.event);
        let job = cells.line_at(JOBS, 0);
        let birth = cells.line_at(BIRTHS, 0);
        let service = at.draw(words, &self.service, sheet);
        sheet.changes.push(Change::Pop { line: JOBS });
        sheet.changes.push(Change::Pop { line: BIRTHS });
        sheet
            .sends
            .push(at.site.job_to(self.next, 0, event.a, event.b));
        sheet.sends.push(done_after(&at.site, service, job, birth));
        sheet.note = told(DONE_WORD, event.a, cells.line_len(JOBS) as u64 - 1);
    }

    /// Nobody waits: the server is free.
    #[tactic(auto, unfolding(crate::specs::Stations::free_effect))]
    fn free(&self, at: &ObjectEvent, sheet: &mut Effect)
        requires cells { IsTrue (is_station_cells self.now.servers self.now.line at.now.cells.now.contents) }
        requires blank { sheet.old ≡ blank }
        ensures { sheet.new ≡ free_effect at.now.site self.now at.now.cells.now.contents at.now.event.now }
    {
        let busy = at.cells.word(BUSY);
        if busy > 0 {
            sheet.changes.push(Change::Set {
                word: BUSY,
                value: busy - 1,
            });
        }
        sheet
            .sends
            .push(at.site.job_to(self.next, 0, at.event.a, at.event.b));
        sheet.note = told(DONE_WORD, at.event.a, 0);
    }
}
