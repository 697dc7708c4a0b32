//! Which objects move to other nodes.

/// Which objects move to other nodes in a run, each time after a whole cycle.
#[derive(Clone, Copy, Debug, PartialEq, Eq)]
pub enum Moves {
    /// One object of the node with the most pending events goes to the node with the fewest, where the loads differ.
    Load,
    /// The objects go in turn, each to the next node.
    Turn,
}
