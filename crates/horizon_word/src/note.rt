//! What the rule of a word is about: how the word began, and what each seat knows.
use std::collections::LinkedList;

/// What a word is made with.
#[derive(Drop)]
pub(crate) struct Opening {
    pub(crate) floor: u64,
    pub(crate) start: u64,
}

/// How far a seat has come: how many steps it took, and the last answer that it got, at first the start.
/// It stands in proofs alone, and no value of it is made.
pub(crate) struct Progress {
    pub(crate) taken: u64,
    pub(crate) seen: u64,
}

/// What a seat knows of its word. It stands in proofs alone, and no value of it is made.
pub(crate) struct Note {
    /// The number that the word was made with.
    pub(crate) floor: u64,
    /// The least stamp that the seat has offered, at first the start.
    pub(crate) least: u64,
    /// How far it has come.
    pub(crate) own: Progress,
    /// How far each seat had come at the last step of this one, in the order of the seats.
    pub(crate) known: LinkedList<Progress>,
}
