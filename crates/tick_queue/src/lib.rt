//! The pending events of a simulation on one thread: those of the tick at hand in order, and later ones by their ticks.
//!
//! Later events stand in eight levels of 64 slots, by the highest digit of six bits in which their tick differs from the
//! tick at hand: a hierarchical timing wheel (Varghese and Lauck, "Hashed and Hierarchical Timing Wheels", 1987), as a
//! radix heap (Ahuja, Mehlhorn, Orlin and Tarjan, "Faster Algorithms for the Shortest Path Problem", 1990). An event goes
//! to a lower level at most seven times, and is compared with others of its tick alone.
#![tactic(auto)]

mod digits;
mod levels;
mod marks;
mod near;
mod order;
mod queue;
mod slots;
mod spread;
mod threads;

pub use delta_exchange::OutOfMemory;
pub use queue::TickQueue;
