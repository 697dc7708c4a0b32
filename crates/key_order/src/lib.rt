//! Lists of events, or of anything that has a key, in the order of their keys.
//!
//! The words stand in `specs/`, and what is known of them, once and for all crates above, in `proofs/`. No function
//! stands here.
#![tactic(auto)]
