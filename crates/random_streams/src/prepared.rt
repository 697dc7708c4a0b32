//! Laws by which many values are drawn.
ghost use Rattle.std.specs.Prelude.{◌≡◌, ◌≤◌, IsTrue};
ghost use Rattle.random_streams.specs.Laws.{is_drawable, is_delay, draw, greatest_value, span_of};

use crate::divisor::Divisor;
use crate::law::Law;
use crate::stream::Stream;
use std::marker::Model;

/// A law that can be drawn, with what makes its draws cheap: none of them divides, where the law isn't a choice.
/// Contracts see the law.
#[derive(Debug, Drop)]
pub struct PreparedLaw {
    law: Law,
    span: Divisor,
}

impl Model for PreparedLaw {
    ghost use Rattle.std.specs.Prelude.{◌≡◌, IsTrue};
    ghost use Rattle.random_streams.specs.Laws.{is_drawable, span_of};
    ghost use Rattle.random_streams.specs.declared.law.Law.{Law};

    ghost Value = { Law };

    ghost view = { λ p. p.law };

    ghost invariant = { λ p. IsTrue (is_drawable p.law) × (p.span ≡ span_of p.law) };
}

impl PreparedLaw {
    /// The law, prepared. This divides once.
    pub fn new(law: Law) -> PreparedLaw
        requires { IsTrue (is_drawable law) }
        ensures { result ≡ law }
    {
        let span = span(&law);
        PreparedLaw { law, span }
    }

    /// Whether the law gives a number of ticks, as all but a choice do.
    pub fn is_delay(&self) -> bool
        ensures { result ≡ is_delay self.now }
    {
        self.law.is_delay()
    }
}

/// How many numbers a uniform law has, and 1 of another law.
#[tactic(auto, unfolding(crate::specs::Laws::is_drawable, crate::specs::Laws::span_of))]
fn span(law: &Law) -> Divisor
    requires { IsTrue (is_drawable law.now) }
    ensures { result ≡ span_of law.now }
{
    match law {
        Law::Uniform { low, high } => Divisor::new(*high - *low + 1),
        _ => Divisor::new(1),
    }
}

impl Stream {
    /// The value of a prepared law at the place, which moves on by the words that the law reads.
    #[tactic(auto, unfolding(crate::specs::Laws::draw, crate::specs::Laws::drawn_value, crate::specs::Laws::words_read, crate::specs::Laws::is_drawable, crate::specs::Laws::span_of, crate::specs::Laws::greatest_value))]
    pub fn draw_prepared(&mut self, prepared: &PreparedLaw) -> u64
        ensures within { result ≤ greatest_value prepared.now }
        ensures value { result ≡ (draw self.old.seed self.old.object self.old.place prepared.now).0 }
        ensures place { self.new ≡ record self.old {
          place = (draw self.old.seed self.old.object self.old.place prepared.now).1;
        } }
    {
        // A place is below 2^64.
        let _ = &self.place;
        match &prepared.law {
            Law::Uniform { low, .. } => *low + prepared.span.remainder(self.word()),
            law => self.draw(law),
        }
    }
}
