//! A service may be at its end.
ghost use Rattle.std.specs.Prelude.{◌≡◌, ◌<◌, ◌≤◌, ◌+◌, ◌^◌, ◌++◌, ◌∷◌, [], IsTrue, length};
ghost use Rattle.model_core.specs.Effects.{blank};
ghost use Rattle.shop_model.specs.declared.class.TheConstants.{MOST_STEPS};
ghost use Rattle.shop_model.specs.Routes.{HasJob};
ghost use Rattle.shop_model.specs.StationEffects.{done_effect, end_effect};

use crate::counts::Counts;
use crate::job::{BirthCode, Job, JobCode};
use crate::own_event::OwnEvent;
use crate::site::told;
use crate::station::{FREE_SERVERS, LAG};
use crate::station_event::StationEvent;
use model_core::{Change, DONE_WORD, Effect};

/// The longest delay: 2^40 ticks.
pub const LONGEST: u64 = 1 << 40;

impl StationEvent<'_> {
    /// The service of a job ends, or is put off by as many ticks as the station stood still.
    #[tactic(auto, unfolding(crate::specs::StationEffects::done_effect))]
    pub(crate) fn done(&self, job: Job, sheet: &mut Effect)
        requires job { HasJob self.now.routes.now job }
        requires step { job.step < MOST_STEPS }
        requires blank { sheet.old ≡ blank }
        ensures { let at = self.now in
            sheet.new ≡ done_effect at.site at.routes.now at.station.now job at.cells.now.contents at.event.now }
    {
        let birth = BirthCode { word: self.event.b };
        let server = birth.server();
        if server >= u64::from(self.station.most) {
            return;
        }
        let word = self.station.mark(server as u32);
        let mark = self.cells.word(word);
        let late = self.cells.word(LAG).wrapping_sub(mark);
        if late > 0 {
            let put_off = late.min(LONGEST);
            sheet.changes.push(Change::Set {
                word,
                value: mark.wrapping_add(put_off),
            });
            let again = OwnEvent::Done {
                job: JobCode { word: self.event.a },
                birth,
            };
            sheet.sends.push(self.site.to_self(put_off, again));
            return;
        }
        self.end(job, server, sheet);
    }

    /// The server is free, and the job goes on.
    #[tactic(auto, unfolding(crate::specs::StationEffects::end_effect))]
    fn end(&self, job: Job, server: u64, sheet: &mut Effect)
        requires job { HasJob self.now.routes.now job }
        requires step { job.step < MOST_STEPS }
        requires blank { sheet.old ≡ blank }
        ensures { let at = self.now in
            sheet.new ≡ end_effect at.site at.routes.now at.station.now job server at.cells.now.contents at.event.now }
    {
        let counts = Counts::of(self.cells);
        if counts.free >= u64::from(self.station.most) {
            return;
        }
        sheet.changes.push(Change::Push {
            line: FREE_SERVERS,
            value: server,
        });
        sheet.sends.push(self.routes.onward(job, self.event.b));
        let counts = Counts {
            free: counts.free + 1,
            ..counts
        };
        counts.call(self.station.most, self.site, sheet);
        sheet.note = told(DONE_WORD, job.id, counts.waiting);
    }
}
