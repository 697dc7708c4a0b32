//! Tests of engines: worlds of nodes on one thread and in threads, objects that move between nodes, and the engine for one
//! thread.
#![tactic(auto)]

#[cfg(test)]
mod tests;
