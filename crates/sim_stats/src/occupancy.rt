//! Who is at an object.
ghost use Rattle.std.specs.Prelude.{◌≡◌, ◌<◌, ◌^◌};

use model_core::{DONE_WORD, TAKEN_WORD, WAITING_WORD};

/// How many servers are busy, and how many jobs wait, each below 2^63.
#[derive(Clone, Copy, Debug, PartialEq, Eq)]
pub struct Occupancy {
    pub busy: u64,
    pub waiting: u64,
}

impl Occupancy {
    ghost use Rattle.sim_stats.specs.Occupancies.{nobody, after_done, after_word};

    /// No server is busy, and no job waits.
    pub fn nobody() -> Occupancy
        ensures { result ≡ nobody }
    {
        Occupancy {
            busy: 0,
            waiting: 0,
        }
    }

    /// A job is done: its server goes on with one that waits, or is free.
    fn after_done(self) -> Occupancy
        ensures { result ≡ after_done self }
    {
        if self.waiting > 0 {
            Occupancy {
                waiting: self.waiting - 1,
                ..self
            }
        } else {
            Occupancy {
                busy: self.busy.saturating_sub(1),
                ..self
            }
        }
    }

    /// As a word that is told leaves it.
    pub fn after(self, word: u32) -> Occupancy
        requires busy { self.busy < 2 ^ 63 }
        requires waiting { self.waiting < 2 ^ 63 }
        ensures { result ≡ after_word self word }
    {
        match word {
            TAKEN_WORD => Occupancy {
                busy: self.busy + 1,
                ..self
            },
            WAITING_WORD => Occupancy {
                waiting: self.waiting + 1,
                ..self
            },
            DONE_WORD => self.after_done(),
            _ => self,
        }
    }
}
