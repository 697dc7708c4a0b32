//! Queueing networks: sources make jobs, stations serve them, delays hold them, routers part them, and sinks take them
//! out.
//!
//! The words are those of queueing theory: L. Kleinrock, "Queueing Systems", volume 1, 1975. The numbers of objects and
//! jobs, the laws of times and the order of what is drawn are those of this project.
#![tactic(auto)]

mod delay;
mod kind;
mod network;
mod rings;
mod router;
mod sink;
mod site;
mod source;
mod station;
mod telling;

pub use delay::Delay;
pub use kind::{Item, ItemOver, Kind, KindOver};
pub use network::Network;
pub use rings::ring;
pub use router::Router;
pub use sink::Sink;
pub use source::{MOST_JOBS, Source};
pub use station::{MOST_SERVERS, MOST_WAITING, Station};
