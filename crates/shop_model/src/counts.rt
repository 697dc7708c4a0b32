//! The counts of a station.
ghost use Rattle.std.specs.Prelude.{◌≡◌, ◌<◌, ◌≤◌, ◌++◌, length};
ghost use Rattle.shop_model.specs.HasStation.{AreCounts};
ghost use Rattle.shop_model.specs.Stations.{counts_of, busy_of, spare_of, call_sent};

use crate::own_event::OwnEvent;
use crate::site::Site;
use crate::station::{DOWN, FREE_SERVERS, HELD, OPEN, WAITING, WORKS};
use model_core::{Cells, Effect};

/// How many servers of a station are open, held and free, how many jobs wait, and whether it stands still.
#[derive(Clone, Copy)]
pub struct Counts {
    pub opened: u64,
    pub held: u64,
    pub free: u64,
    pub waiting: u64,
    pub down: u64,
}

impl Counts {
    /// Those of these cells.
    pub fn of(cells: &Cells) -> Counts
        requires words { 4 < length cells.now.contents.words }
        requires lines { 0 < length cells.now.contents.lines }
        ensures { result ≡ counts_of cells.now.contents }
    {
        Counts {
            opened: cells.word(OPEN),
            held: cells.word(HELD),
            free: cells.line_len(FREE_SERVERS) as u64,
            waiting: cells.word(WAITING),
            down: cells.word(DOWN),
        }
    }

    /// How many of so many servers serve a job or are held by one.
    pub fn busy(&self, most: u32) -> u64
        requires { AreCounts most self.now }
        ensures { result ≡ busy_of most self.now }
    {
        u64::from(most) - self.free + self.held
    }

    /// How many of so many servers could begin a job now.
    #[tactic(auto, unfolding(crate::specs::Stations::spare_of))]
    pub fn spare(&self, most: u32) -> u64
        requires { AreCounts most self.now }
        ensures spare { result ≡ spare_of most self.now }
        ensures few { result ≤ self.now.opened }
    {
        if self.down != WORKS {
            return 0;
        }
        self.opened.saturating_sub(self.busy(most))
    }

    /// Lets a server call, where one could and a job waits.
    #[tactic(auto, unfolding(crate::specs::Stations::call_sent))]
    pub fn call(&self, most: u32, site: Site, sheet: &mut Effect)
        requires counts { AreCounts most self.now }
        requires room { length sheet.old.sends ≤ 2 }
        ensures { sheet.new ≡ record sheet.old { sends = sheet.old.sends ++ call_sent most site self.now } }
    {
        if self.waiting > 0 && self.spare(most) > 0 {
            sheet.sends.push(site.to_self(0, OwnEvent::Call));
        }
    }
}
