//! Laws in the words of those who study queues and schedules: what holds of every run of a shop. Each file is a law; its
//! function does nothing: its contract is the law.
#![tactic(auto)]

pub mod ages;
pub mod due;
pub mod flow;
pub mod idle;
pub mod jobs;
pub mod little;
pub mod order;
pub mod servers;
pub mod turns;
pub mod utilisation;
