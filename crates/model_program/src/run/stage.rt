//! What stays the same for a run.
use std::alloc::Global;

/// What a simulation runs with: the runtime that has its threads, where its memory comes from, and a gate that is told what
/// its nodes do.
#[derive_where(Clone, Copy)]
pub struct Stage<'a, R, G> {
    pub rt: &'a R,
    pub alloc: Global,
    pub gate: &'a G,
}
