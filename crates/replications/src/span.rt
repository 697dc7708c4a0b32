//! The ticks of a window.
ghost use Rattle.std.specs.Prelude.{◌≡◌, ◌-◌};

/// The ticks from the first one of a window to its last one. There is none where the first comes after the last.
#[derive(Clone, Copy, Debug, PartialEq, Eq)]
pub struct Span {
    pub first_tick: u64,
    /// At most 2^48.
    pub last_tick: u64,
}

impl Span {
    /// How many ticks there are from the first to the last, or 0.
    pub fn ticks(&self) -> u64
        ensures { result ≡ self.now.last_tick - self.now.first_tick }
    {
        self.last_tick.saturating_sub(self.first_tick)
    }
}
