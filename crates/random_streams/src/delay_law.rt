//! The laws by which delays and other amounts are drawn, with tables of what was measured.
ghost use Rattle.std.specs.Prelude.{◌≡◌, ◌<◌, ◌≤◌, ◌+◌, ◌-◌, ◌*◌, ◌%◌, ◌^◌, IsTrue, length, slice_index};
ghost use Rattle.random_streams.specs.Laws.{is_drawable, first_trial, words_read};
ghost use Rattle.random_streams.specs.Words.{word_of, words_from};
ghost use Rattle.random_streams.specs.Shares.{are_shares, place_by};
ghost use Rattle.random_streams.specs.Delays.{is_delay_law, are_values, do_rise, draw_delay};
ghost use Rattle.random_streams.specs.declared.delay_law.DelayLaw.TheVariants.{Spread, Table, Steps};

use crate::divisor::Divisor;
use crate::law::{Law, MOST_TRIALS, MOST_VALUE};
use crate::prepared::PreparedLaw;
use crate::shares::Shares;
use crate::stream::Stream;
use crate::values::Values;

/// The greatest unit: 2^24.
pub const MOST_UNIT: u64 = 16_777_216;

/// How a delay, or another amount up to 2^40, is drawn from random words of 32 bits.
#[derive(Debug, Drop)]
pub enum DelayLaw {
    /// As by the law, which is no choice.
    Plain { law: PreparedLaw },
    /// A geometric law in units, and a number within the last of them: `unit` times one less than the trial of the law
    /// of `p` and `cap`, and 1, and the word after those that it read modulo `unit`. The unit is at most 2^24.
    Spread { p: u32, cap: u32, unit: Divisor },
    /// One of the values, which are at most 2^40, in proportion to its weight.
    Table { values: Values, weights: Shares },
    /// A number between two neighbours of the bounds, the lower one with it, of which the weights choose one and the
    /// next word a number. There is one bound more than weights, each above the one before by at most 2^32.
    Steps { bounds: Values, weights: Shares },
}

impl DelayLaw {
    /// Whether the numbers of the law lie within its bounds, so that it can be drawn.
    #[tactic(auto, unfolding(crate::specs::Delays::is_delay_law))]
    pub fn check(&self) -> bool
        ensures { result ≡ is_delay_law self.now }
    {
        match self {
            DelayLaw::Plain { law } => law.is_delay(),
            DelayLaw::Spread { p, cap, unit } => {
                let unit = unit.get();
                *p >= 1 && *cap >= 1 && *cap <= MOST_TRIALS && unit >= 1 && unit <= MOST_UNIT
            }
            DelayLaw::Table { values, weights } => {
                let values = values.as_slice();
                are_values(values) && values.len() == weights.len()
            }
            DelayLaw::Steps { bounds, weights } => {
                let bounds = bounds.as_slice();
                are_values(bounds) && bounds.len() == weights.len() + 1 && do_rise(bounds)
            }
        }
    }
}

/// Whether no value is above 2^40.
#[tactic(auto, unfolding(crate::specs::Delays::are_values))]
fn are_values(values: &[u64]) -> bool
    ensures { result ≡ are_values values.now }
{
    values.iter().all(|value| *value <= MOST_VALUE)
}

/// Whether each bound is above the one before, by at most 2^32.
fn do_rise(bounds: &[u64]) -> bool
    ensures { result ≡ do_rise bounds.now }
{
    for at in 1..bounds.len() {
        let (before, bound) = (bounds[at - 1], bounds[at]);
        if before >= bound || bound - before > 1 << 32 {
            return false;
        }
    }
    true
}

impl Stream {
    /// The value of a law at the place, which moves on by the words that the law reads.
    #[tactic(auto, unfolding(crate::specs::Delays::draw_delay, crate::specs::Delays::delay_drawn, crate::specs::Delays::delay_words, crate::specs::Delays::is_delay_law, crate::specs::Laws::draw))]
    pub fn draw_delay(&mut self, law: &DelayLaw) -> u64
        requires { IsTrue (is_delay_law law.now) }
        ensures bounded { result ≤ 2 ^ 40 }
        ensures value { result ≡ (draw_delay self.old.seed self.old.object self.old.place law.now).0 }
        ensures place { self.new ≡ record self.old {
          place = (draw_delay self.old.seed self.old.object self.old.place law.now).1;
        } }
    {
        match law {
            DelayLaw::Plain { law } => self.draw_prepared(law),
            DelayLaw::Spread { p, cap, unit } => self.spread(*p, *cap, unit),
            DelayLaw::Table { values, weights } => self.entry(values, weights),
            DelayLaw::Steps { bounds, weights } => self.between(bounds, weights),
        }
    }

    /// A geometric law in units, and a number within the last of them.
    #[tactic(auto, unfolding(crate::specs::Delays::draw_delay, crate::specs::Delays::delay_drawn, crate::specs::Delays::delay_words, crate::specs::Delays::is_delay_law, crate::specs::Laws::draw, crate::specs::Laws::drawn_value, crate::specs::Laws::is_drawable, crate::specs::Laws::greatest_value))]
    fn spread(&mut self, p: u32, cap: u32, unit: &Divisor) -> u64
        requires { IsTrue (is_delay_law (Spread p cap unit.now)) }
        ensures value { result ≡ (draw_delay self.old.seed self.old.object self.old.place (Spread p cap unit.now)).0 }
        ensures place { self.new ≡ record self.old {
          place = (draw_delay self.old.seed self.old.object self.old.place (Spread p cap unit.now)).1;
        } }
    {
        let trial = self.draw(&Law::Geometric { p, cap });
        unit.get() * (trial - 1) + 1 + unit.remainder(self.word())
    }

    /// One of the values, in proportion to its weight.
    #[tactic(auto, unfolding(crate::specs::Delays::draw_delay, crate::specs::Delays::delay_drawn, crate::specs::Delays::delay_words, crate::specs::Delays::is_delay_law))]
    fn entry(&mut self, values: &Values, weights: &Shares) -> u64
        requires { IsTrue (is_delay_law (Table values.now weights.now)) }
        ensures value { result ≡ (draw_delay self.old.seed self.old.object self.old.place (Table values.now weights.now)).0 }
        ensures place { self.new ≡ record self.old {
          place = (draw_delay self.old.seed self.old.object self.old.place (Table values.now weights.now)).1;
        } }
    {
        // A place is below 2^64.
        let _ = &self.place;
        let place = weights.place_by(self.word());
        values.as_slice()[place]
    }

    /// A number between two neighbours of the bounds.
    #[tactic(auto, unfolding(crate::specs::Delays::draw_delay, crate::specs::Delays::delay_drawn, crate::specs::Delays::delay_words, crate::specs::Delays::is_delay_law))]
    fn between(&mut self, bounds: &Values, weights: &Shares) -> u64
        requires { IsTrue (is_delay_law (Steps bounds.now weights.now)) }
        ensures value { result ≡ (draw_delay self.old.seed self.old.object self.old.place (Steps bounds.now weights.now)).0 }
        ensures place { self.new ≡ record self.old {
          place = (draw_delay self.old.seed self.old.object self.old.place (Steps bounds.now weights.now)).1;
        } }
    {
        // A place is below 2^64.
        let _ = &self.place;
        let place = weights.place_by(self.word());
        let bounds = bounds.as_slice();
        let (low, high) = (bounds[place], bounds[place + 1]);
        low + u64::from(self.word()) % (high - low)
    }
}
