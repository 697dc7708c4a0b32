//! Worked examples: what the definitions come to on small models of PHOLD and of queueing networks.
//!
//! Each function does nothing: its contract is the example, computed from the definitions.
#![tactic(auto)]

pub mod faults;
pub mod limits;
pub mod running_ahead;
pub mod ties;
