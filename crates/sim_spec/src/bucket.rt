//! What one cycle commits.
use event_key::Key;
use model_core::Records;

/// The events below one event horizon (Steinman 1994), as far as the limit lets them happen.
#[derive(Drop)]
pub struct Bucket {
    /// What happened, in the order of the keys.
    pub done: Records,
    /// The horizon of a whole bucket: one that met no fault and no limit. Else 0.
    pub horizon: u64,
    /// The event at which the bucket ended, and the code with which it failed.
    pub fault: Option<(Key, u32)>,
    /// Whether the limit cut the bucket.
    pub limited: bool,
}
