//! The weights of a table, kept as their sums.
ghost use Rattle.std.specs.Prelude.{◌≡◌, ◌<◌, ◌≤◌, ◌+◌, ◌^◌, ℕ, IsTrue, IfOk, length, sum, take, slice_index};
ghost use Rattle.random_streams.specs.declared.shares.TheConstants.{MOST_SHARES};
ghost use Rattle.random_streams.specs.Laws.{chosen_place};
ghost use Rattle.random_streams.specs.Shares.{are_shares, place_by};

use crate::divisor::Divisor;
use crate::weights::all_fit;
use std::alloc::{AllocError, Global};
use std::marker::Model;

/// How many weights a table has at most.
pub const MOST_SHARES: usize = 1024;

/// Weights of which a word chooses one, each in proportion, in the logarithm of how many there are.
#[derive(Debug, Drop)]
pub struct Shares {
    weights: Vec<u32>,
    // The sum of the weights up to each place.
    up_to: Vec<u64>,
    total: Divisor,
}

impl Model for Shares {
    ghost use Rattle.std.specs.Prelude.{◌≡◌, ◌<◌, ◌+◌, ℕ, List, IsTrue, length, sum, take, slice_index};
    ghost use Rattle.random_streams.specs.Shares.{are_shares};

    ghost Value = { List ℕ };

    ghost view = { λ s. s.weights.items };

    ghost invariant = { λ s. IsTrue (are_shares s.weights.items)
        × (length s.up_to.items ≡ length s.weights.items)
        × ((k : ℕ) → k < length s.weights.items → slice_index s.up_to.items k ≡ sum (take (k + 1) s.weights.items))
        × (s.total ≡ sum s.weights.items) };
}

impl Shares {
    /// These weights, in this order.
    pub fn new(alloc: Global, weights: Vec<u32>) -> Result<Shares, AllocError>
        requires { IsTrue (are_shares weights.items) }
        ensures { IfOk result (λ shares. shares ≡ weights.items) }
    {
        let up_to = sums(alloc, &weights)?;
        let total = Divisor::new(up_to[weights.len() - 1]);
        Ok(Shares {
            weights,
            up_to,
            total,
        })
    }

    /// How many weights there are.
    pub fn len(&self) -> usize
        ensures len { result ≡ length self.now }
        ensures few { result ≤ MOST_SHARES }
        ensures shares { IsTrue (are_shares self.now) }
    {
        self.weights.len()
    }

    /// The place that a word chooses, the first at place 0.
    pub fn place_by(&self, word: u32) -> usize
        ensures place { result ≡ place_by self.now word }
        ensures within { result < length self.now }
    {
        self.place_at(self.total.remainder(word))
    }

    /// The first place up to which the weights add up to more than `share`.
    fn place_at(&self, share: u64) -> usize
        ensures { result ≡ chosen_place self.now share }
    {
        self.up_to.partition_point(|sum| *sum <= share)
    }
}

/// Whether these are the weights of a table.
#[tactic(auto, unfolding(crate::specs::Shares::are_shares))]
pub fn are_shares(weights: &[u32]) -> bool
    ensures { result ≡ are_shares weights.now }
{
    !weights.is_empty()
        && weights.len() <= MOST_SHARES
        && all_fit(weights)
        && share_total(weights) >= 1
}

/// The sum of the weights.
fn share_total(weights: &[u32]) -> u64
    requires { length weights.now ≤ MOST_SHARES }
    ensures { result ≡ sum weights.now }
{
    weights.iter().map(|weight| u64::from(*weight)).sum()
}

/// The sum of the weights up to each place.
fn sums(alloc: Global, weights: &[u32]) -> Result<Vec<u64>, AllocError>
    requires few { length weights.now ≤ MOST_SHARES }
    ensures len { IfOk result (λ sums. length sums.items ≡ length weights.now) }
    ensures each { IfOk result (λ sums. (k : ℕ) → k < length weights.now
        → slice_index sums.items k ≡ sum (take (k + 1) weights.now)) }
{
    let mut sums = Vec::with_capacity(alloc, weights.len())?;
    let mut sum = 0;
    for weight in weights {
        sum += u64::from(*weight);
        sums.push(sum)?;
    }
    Ok(sums)
}
