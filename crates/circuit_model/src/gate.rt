//! Gates, and the values that they compute.
ghost use Rattle.std.specs.Prelude.{IsTrue, ◌↔◌, ◌≡◌, ◌≤◌, ℕ, List, length};
ghost use Rattle.circuit_model.specs.Gates.{is_input, is_flip_flop, value_of, toggled, HasPins, AreBits, ones_in};

use crate::limits::MOST_PINS;
use model_core::{Name, Sequence};

/// What a gate computes of its pins.
#[derive(Clone, Copy, Debug, PartialEq, Eq)]
pub enum LogicKind {
    /// Has no pin, and turns at times of its own.
    Input,
    /// The value of its only pin.
    Buf,
    /// The opposite of its only pin.
    Not,
    /// Whether all pins are 1.
    And,
    /// Whether some pin is 1.
    Or,
    /// Whether the number of pins that are 1 is odd.
    Xor,
    /// The opposite of `And`.
    Nand,
    /// The opposite of `Or`.
    Nor,
    /// A flip-flop: takes what pin 0 is when pin 1, its clock, rises from 0 to 1, and keeps it until then.
    Dff,
}

/// A gate of a circuit, as it is described.
#[derive(Drop)]
pub struct LogicGate {
    pub name: Name,
    pub kind: LogicKind,
    /// How long its output takes to the pins that it feeds, in ticks, at most 2^40. That of an input takes no time,
    /// whatever stands here.
    pub delay: u64,
    /// For each of its pins the number of the gate that feeds it: none for an input, 1 for `Buf` and `Not`, 2 for a
    /// flip-flop, and 1 to 8 for the others.
    pub from: Sequence<u32>,
    /// When an input turns, in ticks, each below 2^46. No other gate has any.
    pub flips: Sequence<u64>,
    /// Whether its changes are told.
    pub probe: bool,
}

impl LogicKind {
    /// Whether it is an input.
    pub fn is_input(self) -> bool
        ensures { result ≡ is_input self }
    {
        matches!(self, LogicKind::Input)
    }

    /// Whether it is a flip-flop.
    pub fn is_flip_flop(self) -> bool
        ensures { result ≡ is_flip_flop self }
    {
        matches!(self, LogicKind::Dff)
    }

    /// Whether it may have so many pins.
    pub fn takes(self, pins: usize) -> bool
        ensures { IsTrue result ↔ HasPins self pins }
    {
        match self {
            LogicKind::Input => pins == 0,
            LogicKind::Buf | LogicKind::Not => pins == 1,
            LogicKind::Dff => pins == 2,
            LogicKind::And | LogicKind::Or | LogicKind::Xor | LogicKind::Nand | LogicKind::Nor => {
                1 <= pins && pins <= MOST_PINS
            }
        }
    }

    /// The output after a turn: an input's is the opposite, and any other gate keeps the one that it holds.
    pub fn toggled(self, held: u64) -> u64
        requires { held ≤ 1 }
        ensures { result ≡ toggled self held }
    {
        match self {
            LogicKind::Input => 1 - held,
            _ => held,
        }
    }

    /// The output by the number of pins, and of those that are 1. An input and a flip-flop keep the one that they hold.
    #[tactic(auto, unfolding(crate::specs::Gates::value_of))]
    pub fn value(self, ones: u64, pins: u64, held: u64) -> u64
        requires pins { HasPins self pins }
        requires ones { ones ≤ pins }
        ensures { (levels : List ℕ) → AreBits levels → length levels ≡ pins → ones_in levels ≡ ones → result ≡ value_of self levels held }
    {
        match self {
            LogicKind::Buf => ones,
            LogicKind::Not => 1 - ones,
            LogicKind::And => u64::from(ones == pins),
            LogicKind::Or => u64::from(ones > 0),
            LogicKind::Xor => ones % 2,
            LogicKind::Nand => u64::from(ones != pins),
            LogicKind::Nor => u64::from(ones == 0),
            LogicKind::Input | LogicKind::Dff => held,
        }
    }
}

impl LogicGate {
    /// How many pins it has.
    pub fn pins(&self) -> usize
        ensures { result ≡ length self.now.from }
    {
        self.from.as_slice().len()
    }
}
