//! What runs a simulation.
use sim_io::{DEFAULT_AHEAD, DEFAULT_NODES, Moves};
use sim_spec::Placement;

/// What runs a simulation.
#[derive(Clone, Copy, Debug, PartialEq, Eq)]
pub enum Machine {
    /// The engine for one thread.
    OneThread,
    /// Nodes that work ahead, in threads.
    Nodes(Spread),
}

/// How the objects of a model are spread over nodes, how far these work ahead, who takes their turns, and which objects
/// move between them.
#[derive(Clone, Copy, Debug, PartialEq, Eq)]
pub struct Spread {
    /// 1 to 64.
    pub nodes: u32,
    /// 0 to 1,024.
    pub ahead: u32,
    pub placement: Placement,
    /// How many workers take turns of nodes and steal them from each other, 1 to 64, where they do.
    pub workers: Option<u32>,
    /// Which objects move to other nodes after a whole cycle, where some do.
    pub moves: Option<Moves>,
}

/// How they are spread where nothing is asked for.
pub const DEFAULT_SPREAD: Spread = Spread {
    nodes: DEFAULT_NODES,
    ahead: DEFAULT_AHEAD,
    placement: Placement::Round,
    workers: None,
    moves: None,
};
