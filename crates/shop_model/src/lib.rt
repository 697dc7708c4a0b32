//! A shop: jobs of several classes go by routes from station to station, whose servers serve them or are held by them.
//! Classes have priorities, and stations shifts and breakdowns; a job may lose its patience as it waits.
//!
//! The words are those of queueing theory: L. Kleinrock, "Queueing Systems", volumes 1 and 2, 1975 and 1976. The numbers
//! of objects and jobs, the laws of times and the order of what is drawn are those of this project.
#![tactic(auto)]

mod begin;
mod breakdown;
mod call;
mod class;
mod class_event;
mod come;
mod counts;
mod done;
mod home;
mod job;
mod kinds;
mod levels;
mod make;
mod own_event;
mod routes;
mod shift;
mod shop;
mod site;
mod standing;
mod starts;
mod station;
mod station_event;
mod step;
mod tire;

pub use class::{Class, MOST_COUNT, MOST_DUE, MOST_PRIORITY, MOST_STEPS, MOST_TIMES};
pub use job::JOBS_A_CLASS;
pub use shop::Shop;
pub use station::{Breakdowns, MOST_LINE, MOST_OPEN, MOST_SHIFTS, Order, Shift, Station};
pub use step::{Branch, Step, Visit};
