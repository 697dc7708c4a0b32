//! What happens at a station, by the kind of the event.
ghost use Rattle.std.specs.Prelude.{◌≡◌, ◌<◌, ◌^◌};
ghost use Rattle.model_core.specs.Effects.{blank};
ghost use Rattle.shop_model.specs.Parts.{AreRoutes};
ghost use Rattle.shop_model.specs.ShopPartsProps.{AreRoutes-prop, IsStation-prop, HasStation-prop};
ghost use Rattle.shop_model.specs.HasStation.{HasStation, HasLevels, IsStation};
ghost use Rattle.shop_model.specs.Meaning.{job_here, come_by, done_by, station_effect};

use crate::kinds::{BREAK, CALL, COME, DONE, MEND, SHIFT, TIRE};
use crate::routes::Routes;
use crate::site::Site;
use crate::station::Station;
use model_core::{Cells, Effect, Event};
use random_streams::Stream;

/// An event at a station, and what it finds there.
#[derive(Clone, Copy)]
pub struct StationEvent<'a> {
    pub station: &'a Station,
    pub site: Site,
    pub routes: &'a Routes,
    pub cells: &'a Cells,
    pub event: &'a Event,
    ghost known_routes: { AreRoutes routes.now } by { AreRoutes-prop routes.now },
    ghost in_range: { IsStation station.now } by { IsStation-prop station.now },
    ghost lawful: { HasStation station.now cells.now.contents } by { HasStation-prop station.now cells.now.contents },
    ghost levels: { HasLevels routes.now station.now },
    ghost tick: { site.tick < 2 ^ 46 },
}

impl StationEvent<'_> {
    /// What the event does, written into a blank sheet.
    #[tactic(auto, unfolding(crate::specs::Meaning::station_effect))]
    #[inline(always)]
    pub(crate) fn react(&self, words: &mut Stream, sheet: &mut Effect)
        requires { sheet.old ≡ blank }
        ensures { let at = self.now in
            sheet.new ≡ station_effect at.site at.routes.now at.station.now at.cells.now.contents at.event.now }
    {
        match self.event.kind {
            COME => self.come_here(words, sheet),
            DONE => self.done_here(sheet),
            CALL => self.call(words, sheet),
            TIRE => self.tire(sheet),
            SHIFT => self.shift(sheet),
            BREAK => self.break_down(words, sheet),
            MEND => self.mend(words, sheet),
            _ => {}
        }
    }

    /// A job comes, if it stands here at its step.
    fn come_here(&self, words: &mut Stream, sheet: &mut Effect)
        requires { sheet.old ≡ blank }
        ensures { let at = self.now in
            sheet.new ≡ come_by at.site at.routes.now at.station.now at.cells.now.contents at.event.now
            (job_here at.routes.now at.site.object at.event.now.a) }
    {
        if let Some(job) = self.routes.job_here(self.site.object, self.event.a) {
            self.come(words, job, sheet);
        }
    }

    /// A service may be at its end, if a server serves the job here.
    fn done_here(&self, sheet: &mut Effect)
        requires { sheet.old ≡ blank }
        ensures { let at = self.now in
            sheet.new ≡ done_by at.site at.routes.now at.station.now at.cells.now.contents at.event.now
            (job_here at.routes.now at.site.object at.event.now.a) }
    {
        if let Some(job) = self.routes.job_here(self.site.object, self.event.a) {
            if self.routes.is_served(job) {
                self.done(job, sheet);
            }
        }
    }
}
