//! Objects and gates as a text tells of them: those to which they send, and those that feed them, are given by their names.
use circuit_model::LogicKind;
use model_core::{Name, Sequence};
use queue_models::{ItemOver, KindOver};

/// What an object does.
pub(crate) type NamedKind = KindOver<Name>;

/// An object.
pub(crate) type NamedItem = ItemOver<Name>;

/// A gate.
#[derive(Drop)]
pub(crate) struct NamedGate {
    pub(crate) name: Name,
    pub(crate) kind: LogicKind,
    /// How long its output takes to the pins that it feeds, in ticks.
    pub(crate) delay: u64,
    /// For each of its pins the name of the gate that feeds it.
    pub(crate) from: Sequence<Name>,
    /// When it turns, in ticks.
    pub(crate) flips: Sequence<u64>,
    /// Whether its changes are told.
    pub(crate) probe: bool,
}
