//! Remainders by one divisor, by multiplication: T. Granlund and P. L. Montgomery, "Division by invariant integers using
//! multiplication", 1994.
ghost use Rattle.std.specs.Prelude.{◌≡◌, ◌%◌, ◌^◌, ◌<◌, ◌≤◌};

use std::marker::Model;

/// A divisor from 1 to 2^32, for remainders of many words of 32 bits.
///
/// A division takes some 26 cycles of a processor, and is made once: what is kept of it is 2^32 divided by the
/// divisor, by which a word is multiplied. The high half of the product is the quotient, or one less.
#[derive(Debug, Drop)]
pub struct Divisor {
    divisor: u64,
    reciprocal: u64,
}

impl Model for Divisor {
    ghost use Rattle.std.specs.Prelude.{ℕ, ◌≡◌, ◌/◌, ◌^◌, ◌<◌, ◌≤◌};

    ghost Value = { ℕ };

    ghost view = { λ d. d.divisor };

    ghost invariant = { λ d. (0 < d.divisor) × (d.divisor ≤ 2 ^ 32) × (d.reciprocal ≡ 2 ^ 32 / d.divisor) };
}

impl Divisor {
    /// This divisor, with its reciprocal.
    pub fn new(divisor: u64) -> Divisor
        requires some { 0 < divisor }
        requires fits { divisor ≤ 2 ^ 32 }
        ensures { result ≡ divisor }
    {
        Divisor {
            divisor,
            reciprocal: (1 << 32) / divisor,
        }
    }

    /// The divisor.
    pub fn get(&self) -> u64
        ensures divisor { result ≡ self.now }
        ensures some { 0 < self.now }
        ensures fits { self.now ≤ 2 ^ 32 }
    {
        self.divisor
    }

    /// The remainder of a word.
    pub fn remainder(&self, word: u32) -> u64
        ensures { result ≡ word % self.now }
    {
        let word = u64::from(word);
        let quotient = (word * self.reciprocal) >> 32;
        let left = word - quotient * self.divisor;
        if left < self.divisor {
            left
        } else {
            left - self.divisor
        }
    }
}
