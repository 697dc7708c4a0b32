//! The summary of a demo.
ghost use Rattle.std.specs.Prelude.{◌≡◌, ◌++◌, ◌∷◌, [], ◌^◌, ◌<◌, ℕ, List};
ghost use Rattle.sim_spec.specs.declared.bucket.Bucket.{Bucket};
ghost use Rattle.sim_text.specs.WholeTexts.{last_stamp};

use crate::bucket_text::is_whole;
use sim_spec::Bucket;

/// How many whole cycles a demo had, and when its last event was.
#[derive(Clone, Copy, Debug, PartialEq, Eq)]
pub struct Summary {
    /// The number of the demo.
    pub n: u32,
    pub cycles: u64,
    /// The stamp of the last event, or 0 before the first.
    pub last: u64,
}

/// The stamp of the last event of a bucket, or this one where it has none.
fn last_stamp(before: u64, bucket: &Bucket) -> u64
    ensures { result ≡ last_stamp before bucket.now.done }
{
    let records = bucket.done.as_buffer();
    if records.is_empty() {
        return before;
    }
    let (key, _) = records.at(records.len() - 1);
    key.stamp
}

impl Summary {
    ghost use Rattle.sim_text.specs.Reports.{summary_of};

    /// No bucket yet.
    #[tactic(auto, unfolding(crate::specs::Reports::summary_of, crate::specs::WholeTexts::last_stamp, sim_spec::specs::Cycles::records_of_buckets))]
    pub fn new(n: u32) -> Summary
        ensures { result ≡ summary_of n [] }
    {
        Summary {
            n,
            cycles: 0,
            last: 0,
        }
    }

    /// One bucket more: one that a fault or the limit cut is no whole cycle.
    pub fn add(&mut self, bucket: &Bucket)
        requires { self.old.cycles < 2 ^ 63 }
        ensures { (n : ℕ) (bs : List Bucket) → self.old ≡ summary_of n bs → self.new ≡ summary_of n (bs ++ bucket.now ∷ []) }
    {
        self.cycles += u64::from(is_whole(bucket));
        self.last = last_stamp(self.last, bucket);
    }
}
