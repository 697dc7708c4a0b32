//! A number that changes in time, and its sum over the ticks.
ghost use Rattle.std.specs.Prelude.{◌≡◌, ◌<◌, ◌≤◌, ◌+◌, ◌*◌, ◌^◌};
ghost use Rattle.shop_totals.specs.Kept.{ticks_between};

/// A number as it is now, and its sum over the ticks that passed, of which those count that come from a first one on.
#[derive(Clone, Copy, Debug, PartialEq, Eq)]
pub struct Kept {
    pub number: u64,
    pub ticks: u128,
}

impl Kept {
    /// A number, of which no tick has passed.
    pub fn new(number: u64) -> Kept
        ensures { result ≡ record { number = number; ticks = 0 } }
    {
        Kept { number, ticks: 0 }
    }

    /// So many ticks pass.
    pub fn pass(self, ticks: u64) -> Kept
        requires room { self.ticks < 2 ^ 127 }
        requires soon { ticks < 2 ^ 48 }
        ensures { result ≡ record self { ticks = self.ticks + self.number * ticks } }
    {
        Kept {
            ticks: self.ticks + u128::from(self.number) * u128::from(ticks),
            ..self
        }
    }
}

/// How many ticks from a first one on lie between two times.
pub(crate) fn ticks_between(first: u64, earlier: u64, later: u64) -> u64
    requires { earlier ≤ later }
    ensures { result ≡ ticks_between first earlier later }
{
    later.max(first) - earlier.max(first)
}
