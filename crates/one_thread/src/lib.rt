//! The engine for one thread: Breathing Time Buckets (Steinman, "SPEEDES: A Multiple-Synchronization Environment for
//! Parallel Discrete-Event Simulation", 1992).
//!
//! The least stamp of the events that came since a bucket began is its event horizon. The events below it are fired in
//! their order, as one bucket, and then nothing is fresh any more.
#![tactic(auto)]

mod ahead;
mod beginning;
mod bucket;
mod bucket_end;
mod course;
mod engine;
mod sending;
mod stretch;
mod turn;

pub use bucket_end::BucketEnd;
pub use engine::OneThread;
