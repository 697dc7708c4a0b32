//! The weights of a choice.
ghost use Rattle.std.specs.Prelude.{◌≡◌, ◌≤◌, length, sum, nat_le};
ghost use Rattle.std.specs.List.{list_all};
ghost use Rattle.random_streams.specs.declared.weights.TheConstants.{MOST_WEIGHT, MOST_WEIGHTS};
ghost use Rattle.random_streams.specs.Laws.{is_choice, chosen_place};

use std::marker::Model;

/// How many weights a choice has at most.
pub const MOST_WEIGHTS: usize = 64;

/// The greatest weight.
pub const MOST_WEIGHT: u32 = 65_535;

/// A list of weights.
#[derive(Debug, Drop)]
pub struct Weights {
    list: Vec<u32>,
}

impl Model for Weights {
    ghost use Rattle.std.specs.Prelude.{List, ℕ};

    ghost Value = { List ℕ };

    ghost view = { λ w. w.list.items };
}

impl Weights {
    /// These weights, in this order.
    pub fn new(list: Vec<u32>) -> Weights
        ensures { result ≡ list.items }
    {
        Weights { list }
    }

    /// The weights in their order.
    pub fn as_slice(&self) -> &[u32]
        ensures { result.now ≡ self.now }
    {
        &self.list
    }
}

/// Whether these are the weights of a choice.
#[tactic(auto, unfolding(crate::specs::Laws::is_choice))]
pub(crate) fn is_choice(weights: &[u32]) -> bool
    ensures { result ≡ is_choice weights.now }
{
    !weights.is_empty()
        && weights.len() <= MOST_WEIGHTS
        && all_fit(weights)
        && total_weight(weights) >= 1
}

/// Whether no weight is too great.
pub(crate) fn all_fit(weights: &[u32]) -> bool
    ensures { result ≡ list_all (λ weight. nat_le weight MOST_WEIGHT) weights.now }
{
    weights.iter().all(|weight| *weight <= MOST_WEIGHT)
}

/// The sum of the weights of a choice.
pub fn total_weight(weights: &[u32]) -> u64
    requires { length weights.now ≤ MOST_WEIGHTS }
    ensures { result ≡ sum weights.now }
{
    weights.iter().map(|weight| u64::from(*weight)).sum()
}

/// The first place up to which the weights add up to more than `share`.
pub(crate) fn chosen(weights: &[u32], share: u64) -> usize
    ensures { result ≡ chosen_place weights.now share }
{
    let mut left = share;
    for (place, weight) in weights.iter().enumerate() {
        if left < u64::from(*weight) {
            return place;
        }
        left -= u64::from(*weight);
    }
    weights.len()
}
