//! A station breaks down, and is mended.
ghost use Rattle.std.specs.Prelude.{◌≡◌, ◌<◌, ◌≤◌, IsTrue};
ghost use Rattle.model_core.specs.Effects.{blank};
ghost use Rattle.random_streams.specs.Delays.{is_delay_law};
ghost use Rattle.shop_model.specs.StationEffects.{break_effect, mend_effect, still_effect, works_effect};

use crate::counts::Counts;
use crate::own_event::OwnEvent;
use crate::site::told;
use crate::station::{DOWN, LAG, STANDS_STILL, WORKS};
use crate::station_event::StationEvent;
use model_core::{Change, DOWN_WORD, Effect, UP_WORD};
use random_streams::{DelayLaw, Stream};

impl StationEvent<'_> {
    /// The station stands still from now on, if it works.
    pub(crate) fn break_down(&self, words: &mut Stream, sheet: &mut Effect)
        requires { sheet.old ≡ blank }
        ensures { let at = self.now in
            sheet.new ≡ break_effect at.site at.station.now at.cells.now.contents at.station.now.breakdowns }
    {
        if let Some(breakdowns) = &self.station.breakdowns {
            if self.cells.word(DOWN) == WORKS {
                self.stand_still(words, &breakdowns.down, sheet);
            }
        }
    }

    /// The station stands still for a drawn while.
    #[tactic(auto, unfolding(crate::specs::StationEffects::still_effect))]
    fn stand_still(&self, words: &mut Stream, law: &DelayLaw, sheet: &mut Effect)
        requires law { IsTrue (is_delay_law law.now) }
        requires blank { sheet.old ≡ blank }
        ensures { let at = self.now in sheet.new ≡ still_effect at.site at.station.now law.now at.cells.now.contents }
    {
        let still = self.site.draw(words, self.cells, law, sheet);
        sheet.changes.push(Change::Set {
            word: DOWN,
            value: STANDS_STILL,
        });
        sheet.changes.push(Change::Set {
            word: LAG,
            value: self.cells.word(LAG).wrapping_add(still),
        });
        sheet.sends.push(self.site.to_self(still, OwnEvent::Mend));
        let busy = Counts::of(self.cells).busy(self.station.most);
        sheet.note = told(DOWN_WORD, still, busy);
    }

    /// The station works from now on, for a drawn while.
    pub(crate) fn mend(&self, words: &mut Stream, sheet: &mut Effect)
        requires { sheet.old ≡ blank }
        ensures { let at = self.now in
            sheet.new ≡ mend_effect at.site at.station.now at.cells.now.contents at.station.now.breakdowns }
    {
        if let Some(breakdowns) = &self.station.breakdowns {
            self.work(words, &breakdowns.up, sheet);
        }
    }

    /// The station works for a drawn while.
    #[tactic(auto, unfolding(crate::specs::StationEffects::works_effect))]
    fn work(&self, words: &mut Stream, law: &DelayLaw, sheet: &mut Effect)
        requires law { IsTrue (is_delay_law law.now) }
        requires blank { sheet.old ≡ blank }
        ensures { let at = self.now in sheet.new ≡ works_effect at.site at.station.now law.now at.cells.now.contents }
    {
        let counts = Counts {
            down: WORKS,
            ..Counts::of(self.cells)
        };
        let works = self.site.draw(words, self.cells, law, sheet);
        sheet.changes.push(Change::Set {
            word: DOWN,
            value: WORKS,
        });
        sheet.sends.push(self.site.to_self(works, OwnEvent::Break));
        counts.call(self.station.most, self.site, sheet);
        sheet.note = told(UP_WORD, counts.waiting, counts.busy(self.station.most));
    }
}
