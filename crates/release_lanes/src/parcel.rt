//! What goes on a lane.
use event_chain::Chain;
use model_core::Event;

/// The events that one node releases to another one.
#[derive(Drop)]
pub struct Parcel {
    /// The number of the node that sends them.
    pub from: u32,
    pub events: Chain<Event>,
}
