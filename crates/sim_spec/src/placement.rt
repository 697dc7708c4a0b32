//! Where objects are kept.

/// How objects are spread over nodes.
#[derive(Clone, Copy, Debug, PartialEq, Eq)]
pub enum Placement {
    /// Object o goes to node `o mod nodes`.
    Round,
    /// Object o goes to node `o * nodes / objects`, rounded down.
    Block,
}
