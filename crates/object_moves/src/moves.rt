//! A move of an object.

/// A move of an object to a node.
#[derive(Clone, Copy, Debug, PartialEq, Eq)]
pub struct Move {
    pub object: u32,
    pub node: u32,
}
