//! What is known of a processed event.

/// What is known of a processed event: the least stamp that it sends, or `NO_STAMP`, and the code with which it failed.
#[derive(Clone, Copy)]
pub struct Mark {
    pub least: u64,
    pub fault: Option<u32>,
}
