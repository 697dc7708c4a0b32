//! Circuits of logic gates: inputs that turn at given times, gates that compute a function of their pins, and
//! flip-flops that take their data on a rising clock. Each gate is an object, and tells its output to the pins that it
//! feeds after a delay of its own.
//!
//! The gates are those of every textbook of digital design, for instance of M. Mano and M. Ciletti, "Digital Design";
//! the delay is a transport delay, as VHDL (IEEE 1076) calls it. The numbers of gates and pins are those of this project.
#![tactic(auto)]

mod circuit;
mod fan_out;
mod gate;
mod hot;
mod limits;
mod response;
mod starts;
mod wiring;

pub use circuit::Circuit;
pub use fan_out::first_overloaded;
pub use gate::{LogicGate, LogicKind};
pub use limits::{MOST_DELAY, MOST_FED, MOST_FLIPS, MOST_PINS};
