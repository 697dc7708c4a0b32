//! What came of the jobs that came.
ghost use Rattle.std.specs.Prelude.{◌≡◌, ◌≤◌, ◌+◌, ◌^◌, ℕ};
ghost use Rattle.shop_totals.specs.Flows.{is_coming, is_beginning, is_end, flow_more, IsFlowWithin};

use model_core::{
    CALLED_WORD, DONE_WORD, FREED_WORD, LOST_WORD, RENEGED_WORD, TAKEN_WORD, WAITING_WORD,
};

/// How many jobs came, how many were begun and done, how many found no place, and how many lost their patience.
#[derive(Clone, Copy, Debug, PartialEq, Eq)]
pub struct Flow {
    pub came: u64,
    pub begun: u64,
    pub done: u64,
    pub lost: u64,
    pub reneged: u64,
}

/// Whether a word tells that a job comes to a station.
fn is_coming(word: u32) -> bool
    ensures { result ≡ is_coming word }
{
    matches!(word, TAKEN_WORD | WAITING_WORD | LOST_WORD)
}

/// Whether a word tells that a server begins a job.
fn is_beginning(word: u32) -> bool
    ensures { result ≡ is_beginning word }
{
    matches!(word, TAKEN_WORD | CALLED_WORD)
}

/// Whether a word tells that a server is free again.
fn is_end(word: u32) -> bool
    ensures { result ≡ is_end word }
{
    matches!(word, DONE_WORD | FREED_WORD)
}

impl Flow {
    /// Nothing came.
    pub fn none() -> Flow
        ensures { result ≡ record { came = 0; begun = 0; done = 0; lost = 0; reneged = 0 } }
    {
        Flow {
            came: 0,
            begun: 0,
            done: 0,
            lost: 0,
            reneged: 0,
        }
    }

    /// As a word more leaves it.
    pub fn and(self, word: u32) -> Flow
        requires room { IsFlowWithin (2 ^ 62) self }
        ensures flow { result ≡ flow_more self word }
        ensures within { (words : ℕ) → IsFlowWithin words self → IsFlowWithin (words + 1) result }
    {
        Flow {
            came: self.came + u64::from(is_coming(word)),
            begun: self.begun + u64::from(is_beginning(word)),
            done: self.done + u64::from(is_end(word)),
            lost: self.lost + u64::from(word == LOST_WORD),
            reneged: self.reneged + u64::from(word == RENEGED_WORD),
        }
    }
}
