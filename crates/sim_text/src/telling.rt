//! What is told of a simulation.

/// What is told of a simulation.
#[derive(Clone, Copy, Debug, PartialEq, Eq)]
pub enum Telling {
    /// Each event as it happens, with a line for each cycle where cycles are told.
    Lines { cycles: bool },
    /// The sums of each object, in the end.
    Totals,
    /// A summary of the demo of this number, in the end.
    Demo { n: u32 },
}
