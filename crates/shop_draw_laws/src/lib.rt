//! Further laws of shops, in the words of those who study queues and schedules: what is drawn and what comes of it, the flow of
//! each class, totals from a tick on, servers beside shifts, and numbers by their names. Each file is a law; its function does
//! nothing: its contract is the law.
#![tactic(auto)]

pub mod classes;
pub mod draws;
pub mod from;
pub mod numbers;
pub mod patience;
pub mod shifts;
pub mod standing;
