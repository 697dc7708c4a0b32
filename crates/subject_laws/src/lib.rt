//! Laws in the words of those who study the subject: what holds of every run of PHOLD, of a network of queues and of a
//! circuit. Each file is a law; its function does nothing: its contract is the law.
#![tactic(auto)]

pub mod births;
pub mod circuit_examples;
pub mod draws;
pub mod end;
pub mod flow;
pub mod functions;
pub mod jobs;
pub mod little;
pub mod losses;
pub mod order;
pub mod population;
pub mod ring;
pub mod servers;
pub mod settled;
pub mod sources;
pub mod telling;
pub mod totals;
pub mod utilisation;
pub mod ways;
