//! Lanes between nodes. On a lane from one node to another go parcels of events, whose cells move whole.
#![tactic(auto)]

mod lanes;
mod parcel;
mod plain;
mod rings;

pub use lanes::{Lanes, NodeEnd};
pub use model_core::OutOfMemory;
pub use parcel::Parcel;
pub use plain::{PlainEnd, PlainLanes};
pub use rings::{RingEnd, RingLanes};
