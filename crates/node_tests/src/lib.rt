//! Tests of one node: the log of an object, and a node that is driven call by call.
#![tactic(auto)]

#[cfg(test)]
mod tests;
