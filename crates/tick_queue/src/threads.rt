//! Queues go from thread to thread.
use crate::queue::TickQueue;

/// Holds for what may move to another thread.
fn may_move<T: Send>() {}

/// A queue may move to another thread.
fn queues_may_move() {
    may_move::<TickQueue>();
}
