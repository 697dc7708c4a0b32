//! What an engine does next within a bucket.
use crate::bucket_end::BucketEnd;
use event_key::Key;

/// What an engine does next within a bucket.
#[derive(Clone, Copy, Debug, PartialEq, Eq)]
pub enum Turn {
    /// The event of this key was done, and the sheet tells of it.
    Does(Key),
    /// The bucket ends so, and nothing changed.
    Ends(BucketEnd),
}
