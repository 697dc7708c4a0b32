//! Turns that workers take from their own deques and steal from those of others, each done once.
#![tactic(auto)]

mod dealing;
mod deque;
mod each;
mod forking;
mod gathering;
mod hiring;
mod ordering;
mod running;
mod tally;
mod task;
mod turn;
mod worker;

pub use delta_exchange::OutOfMemory;
pub use each::run_each;
pub use running::run_turns;
pub use turn::Turn;
pub use worker::MOST_WORKERS;
