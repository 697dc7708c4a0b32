//! How a bucket ended.
ghost use Rattle.std.specs.Prelude.{◌≡◌};
ghost use Rattle.one_thread.specs.Ends.{bucket_of, fault_of, told_horizon};

use event_key::Key;
use model_core::Records;
use sim_spec::Bucket;

/// How a bucket ended.
#[derive(Clone, Copy, Debug, PartialEq, Eq)]
pub enum BucketEnd {
    /// No event is left below this horizon: the least stamp that was sent in the bucket, or the bound of the terms' end.
    Whole { horizon: u64 },
    /// An event is left below the horizon, but as many are done as the terms let happen.
    Limit,
    /// The event of this key failed with this code.
    Fault { key: Key, code: u32 },
}

impl BucketEnd {
    /// The event that failed, and its code.
    pub fn fault(self) -> Option<(Key, u32)>
        ensures { result ≡ fault_of self }
    {
        match self {
            BucketEnd::Fault { key, code } => Some((key, code)),
            BucketEnd::Whole { .. } | BucketEnd::Limit => None,
        }
    }

    /// The horizon that is told of the bucket: 0, unless the bucket is whole.
    fn told_horizon(self) -> u64
        ensures { result ≡ told_horizon self }
    {
        match self {
            BucketEnd::Whole { horizon } => horizon,
            BucketEnd::Limit | BucketEnd::Fault { .. } => 0,
        }
    }

    /// The bucket that ended so, and has these records.
    pub fn bucket(self, done: Records) -> Bucket
        ensures { result ≡ bucket_of done self }
    {
        Bucket {
            done,
            horizon: self.told_horizon(),
            fault: self.fault(),
            limited: matches!(self, BucketEnd::Limit),
        }
    }
}
