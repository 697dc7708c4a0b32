//! A server begins a job.
ghost use Rattle.std.specs.Prelude.{◌≡◌, ◌<◌, ◌≤◌, ◌+◌, ◌^◌, ◌++◌, ◌∷◌, [], IsTrue, length};
ghost use Rattle.delta_exchange.specs.Changes.{line_of};
ghost use Rattle.shop_model.specs.declared.station.TheConstants.{FREE_SERVERS};
ghost use Rattle.std.specs.Option.{ForSome};
ghost use Rattle.model_core.specs.Effects.{blank};
ghost use Rattle.model_core.specs.Places.{place_changes};
ghost use Rattle.random_streams.specs.Delays.{is_delay_law};
ghost use Rattle.shop_model.specs.declared.class.TheConstants.{MOST_STEPS};
ghost use Rattle.shop_model.specs.declared.job.TheConstants.{BIRTHS};
ghost use Rattle.shop_model.specs.Routes.{HasJob};
ghost use Rattle.shop_model.specs.Sites.{place_of};
ghost use Rattle.shop_model.specs.HasStation.{AreCounts};
ghost use Rattle.shop_model.specs.Beginnings.{service_drawn, begin_changes, begin_sent, counts_begun};

use crate::counts::Counts;
use crate::job::{BirthCode, Job, JobCode};
use crate::own_event::OwnEvent;
use crate::site::Site;
use crate::station::{FREE_SERVERS, HELD, LAG};
use crate::station_event::StationEvent;
use crate::step::Visit;
use model_core::{Cells, Change, Effect};
use random_streams::Stream;

impl Visit {
    /// How long its service takes, or 0 where the job takes the server along. What it draws is the first change.
    #[inline(always)]
    pub(crate) fn service(
        &self,
        words: &mut Stream,
        site: Site,
        cells: &Cells,
        sheet: &mut Effect,
    ) -> u64
        requires law { ForSome self.now.service (λ law. IsTrue (is_delay_law law)) }
        requires cells { 0 < length cells.now.contents.words }
        requires blank { sheet.old ≡ blank }
        ensures value { result ≡ (service_drawn site cells.now.contents self.now).0 }
        ensures few { length sheet.new.changes ≤ 1 }
        ensures sheet { sheet.new ≡ record blank {
          changes = place_changes (place_of cells.now.contents) (service_drawn site cells.now.contents self.now).1;
        } }
    {
        match &self.service {
            Some(law) => site.draw(words, cells, law, sheet),
            None => 0,
        }
    }
}

impl StationEvent<'_> {
    /// Begins a job, whose service takes so long, and answers the counts after that.
    #[tactic(auto, unfolding(crate::specs::Beginnings::begin_changes, crate::specs::Beginnings::begin_sent, crate::specs::Beginnings::counts_begun))]
    #[inline(always)]
    pub(crate) fn begin(
        &self,
        visit: &Visit,
        service: u64,
        job: Job,
        birth: u64,
        counts: Counts,
        sheet: &mut Effect,
    ) -> Counts
        requires job { HasJob self.now.routes.now job }
        requires step { job.step < MOST_STEPS }
        requires birth { birth < BIRTHS }
        requires counts { AreCounts self.now.station.now.most counts }
        requires free { counts.held < counts.free }
        requires same { counts.free ≡ length (line_of self.now.cells.now.contents FREE_SERVERS) }
        requires changes { length sheet.old.changes ≤ 8 }
        requires sends { sheet.old.sends ≡ [] }
        ensures counts { result ≡ counts_begun visit.now counts }
        ensures are_counts { AreCounts self.now.station.now.most result }
        ensures sheet { let at = self.now in sheet.new ≡ record sheet.old {
          changes = sheet.old.changes ++ begin_changes at.station.now at.cells.now.contents visit.now counts;
          sends = begin_sent at.site at.routes.now at.cells.now.contents visit.now service job birth ∷ [];
        } }
    {
        if visit.service.is_none() {
            let held = counts.held + 1;
            sheet.changes.push(Change::Set {
                word: HELD,
                value: held,
            });
            sheet.sends.push(self.routes.onward(job, birth));
            return Counts { held, ..counts };
        }
        let last = self.cells.line_len(FREE_SERVERS) - 1;
        let server = self.cells.line_at(FREE_SERVERS, last);
        sheet.changes.push(Change::Unpush { line: FREE_SERVERS });
        sheet.changes.push(Change::Set {
            word: self.station.mark(server as u32),
            value: self.cells.word(LAG),
        });
        let end = OwnEvent::Done {
            job: JobCode::of(job.step, job.id),
            birth: BirthCode::of(server, birth),
        };
        sheet.sends.push(self.site.to_self(service, end));
        Counts {
            free: counts.free - 1,
            ..counts
        }
    }
}
