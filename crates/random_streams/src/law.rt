//! The laws by which values are drawn.
ghost use Rattle.std.specs.Prelude.{◌≡◌};
ghost use Rattle.random_streams.specs.Laws.{is_drawable, is_delay};

use crate::weights::{Weights, is_choice};

/// The greatest value of a law in ticks: 2^40.
pub const MOST_VALUE: u64 = 1_099_511_627_776;

/// How many trials a law makes at most.
pub const MOST_TRIALS: u32 = 65_536;

/// How a value is drawn from random words of 32 bits.
#[derive(Debug, Drop)]
pub enum Law {
    /// Always the value, which is at most 2^40. It reads no word.
    Fixed { value: u64 },
    /// A number from `low` to `high`: `low` and a word modulo the numbers there are. `high` is at most 2^40, and at
    /// most 2^32 - 1 above `low`.
    Uniform { low: u64, high: u64 },
    /// The first trial, counted from 1, whose word is below `p`, or `cap` where no trial before the `cap`th has one:
    /// the whole-number law without memory. `p` is at least 1, and `cap` is from 1 to `MOST_TRIALS`.
    Geometric { p: u32, cap: u32 },
    /// A place of the list, counted from 0, in proportion to its weight. There are 1 to 64 weights, each at most 65535,
    /// and one of them at least is above 0.
    Choice { weights: Weights },
}

impl Law {
    /// Whether the numbers of the law lie within its bounds, so that it can be drawn.
    #[tactic(auto, unfolding(crate::specs::Laws::is_drawable))]
    pub fn check(&self) -> bool
        ensures { result ≡ is_drawable self.now }
    {
        match self {
            Law::Fixed { value } => *value <= MOST_VALUE,
            Law::Uniform { low, high } => {
                *low <= *high && *high <= MOST_VALUE && *high - *low < 1 << 32
            }
            Law::Geometric { p, cap } => *p >= 1 && *cap >= 1 && *cap <= MOST_TRIALS,
            Law::Choice { weights } => is_choice(weights.as_slice()),
        }
    }
    /// Whether the law can be drawn and gives a number of ticks, as all but a choice do.
    #[tactic(auto, unfolding(crate::specs::Laws::is_delay))]
    pub fn is_delay(&self) -> bool
        ensures { result ≡ is_delay self.now }
    {
        match self {
            Law::Choice { .. } => false,
            _ => self.check(),
        }
    }
}
