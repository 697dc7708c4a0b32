//! The steps of a route.
use model_core::Sequence;
use random_streams::{DelayLaw, Weights};

/// A step of a route.
#[derive(Drop)]
pub enum Step {
    /// The job visits a station.
    Visit(Visit),
    /// The job gives a server of a station back, and goes on.
    Free { station: u32 },
    /// The job stays with its class for so long, and goes on.
    Delay { law: DelayLaw },
    /// The job goes to one of several steps.
    Go(Branch),
}

/// A visit of a station, where a job waits if no server is free.
#[derive(Drop)]
pub struct Visit {
    /// The number of the station.
    pub station: u32,
    /// How long a server serves it. With no law it takes a server for itself, and goes on with it.
    pub service: Option<DelayLaw>,
    /// How long it waits at most.
    pub patience: Option<DelayLaw>,
    /// The step to which it goes where its patience ends.
    pub away: u32,
    /// The step to which it goes where it finds no place in the line.
    pub full: u32,
}

/// A choice among steps, each in proportion to its weight.
#[derive(Drop)]
pub struct Branch {
    /// The steps, 1 to 64.
    pub steps: Sequence<u32>,
    /// A weight for each.
    pub weights: Weights,
}
