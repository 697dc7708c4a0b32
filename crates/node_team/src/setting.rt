//! What stays the same for a cycle.
use std::alloc::Global;

/// What stays the same for a cycle: its threads, its memory, who is told of it, and how it is worked.
#[derive(Drop)]
pub struct Setting<'a, R, G> {
    pub rt: &'a R,
    pub alloc: Global,
    pub gate: &'a G,
    /// How many events each node processes at least, as far as it has them.
    pub ahead: u32,
    /// So many workers, 1 to 64, steal each other's turns of an advance in threads, if any do.
    pub workers: Option<u32>,
}
