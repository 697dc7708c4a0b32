//! Classes of jobs.
use crate::step::Step;
use model_core::{Name, Sequence};
use random_streams::{DelayLaw, Values};

/// How many jobs a class makes at most.
pub const MOST_COUNT: u32 = 9_999_999;

/// The calmest priority; 0 goes first.
pub const MOST_PRIORITY: u32 = 7;

/// The greatest due, and the last tick: 2^46 - 1.
pub const MOST_DUE: u64 = 70_368_744_177_663;

/// How many steps a route has at most.
pub const MOST_STEPS: usize = 1_024;

/// How many ticks all classes together name for their arrivals at most.
pub const MOST_TIMES: usize = 250_000;

/// A class of jobs: when they arrive, and by which route they go. From the last step a job goes out.
#[derive(Drop)]
pub struct Class {
    pub name: Name,
    /// How many ticks after an arrival the next one comes.
    pub every: Option<DelayLaw>,
    /// The tick of the first of these arrivals, and the last tick at which one comes.
    pub first: u64,
    pub until: u64,
    /// The ticks of further arrivals.
    pub times: Values,
    /// How many jobs an arrival brings. With no law it brings one.
    pub batch: Option<DelayLaw>,
    /// How many jobs are made at most, 1 to `MOST_COUNT`.
    pub count: u32,
    /// 0 to `MOST_PRIORITY`; 0 goes first.
    pub priority: u32,
    /// How old a job may leave without being late.
    pub due: Option<u64>,
    pub route: Sequence<Step>,
}

/// The word that counts the jobs that were made.
pub const MADE: u32 = 1;

/// The word that counts those of them that are inside.
pub const INSIDE: u32 = 2;
