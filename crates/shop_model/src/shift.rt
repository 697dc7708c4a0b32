//! A shift begins.
ghost use Rattle.std.specs.Prelude.{◌≡◌, ◌<◌, ◌≤◌, [], length};
ghost use Rattle.model_core.specs.Effects.{blank};
ghost use Rattle.shop_model.specs.HasStation.{IsStation};
ghost use Rattle.shop_model.specs.StationEffects.{shift_at, shift_sent, shift_effect};

use crate::counts::Counts;
use crate::own_event::OwnEvent;
use crate::site::{Site, told};
use crate::station::{OPEN, Shift, Station};
use crate::station_event::StationEvent;
use model_core::{Change, Effect, OPENED_WORD};

impl StationEvent<'_> {
    /// So many servers are open from now on as the shift says.
    #[tactic(auto, unfolding(crate::specs::StationEffects::shift_effect))]
    pub(crate) fn shift(&self, sheet: &mut Effect)
        requires { sheet.old ≡ blank }
        ensures { let at = self.now in sheet.new ≡ shift_effect at.site at.station.now at.cells.now.contents at.event.now }
    {
        let number = self.event.a;
        if number >= self.station.shifts.as_slice().len() as u64 {
            return;
        }
        let opened = u64::from(self.station.shift_at(number).servers);
        sheet.changes.push(Change::Set {
            word: OPEN,
            value: opened,
        });
        self.station.send_shift(self.site, number, sheet);
        let counts = Counts {
            opened,
            ..Counts::of(self.cells)
        };
        counts.call(self.station.most, self.site, sheet);
        sheet.note = told(OPENED_WORD, opened, counts.busy(self.station.most));
    }
}

impl Station {
    /// The shift with this number.
    fn shift_at(&self, number: u64) -> Shift
        requires { number < length self.now.shifts }
        ensures { result ≡ shift_at self.now number }
    {
        self.shifts.as_slice()[number as usize]
    }

    /// Sends the shift after one, if there is one.
    #[tactic(auto, unfolding(crate::specs::StationEffects::shift_sent))]
    fn send_shift(&self, site: Site, number: u64, sheet: &mut Effect)
        requires station { IsStation self.now }
        requires number { number < length self.now.shifts }
        requires sends { sheet.old.sends ≡ [] }
        ensures few { length sheet.new.sends ≤ 1 }
        ensures sheet { sheet.new ≡ record sheet.old { sends = shift_sent site self.now number } }
    {
        let at = self.shift_at(number).at;
        if number + 1 < self.shifts.as_slice().len() as u64 {
            let delay = self.shift_at(number + 1).at.saturating_sub(at);
            let next = OwnEvent::Shift { number: number + 1 };
            sheet.sends.push(site.to_self(delay, next));
        } else if let Some(period) = self.period {
            let delay = (period + self.shift_at(0).at).saturating_sub(at);
            let first = OwnEvent::Shift { number: 0 };
            sheet.sends.push(site.to_self(delay, first));
        }
    }
}
