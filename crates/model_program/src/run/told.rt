//! What a run tells of itself.
ghost use Rattle.std.specs.Prelude.{◌≡◌};

use model_core::Records;
use sim_spec::Stop;

/// Why no cycle comes any more, if none does, how many events are done, and the records that were given back since the last
/// cycle. A run keeps them beside its engine: a method of the trait `Engine` can't ask one whose model threads share.
#[derive(Drop)]
pub struct Told {
    pub ended: Option<Stop>,
    pub count: u64,
    pub spare: Option<Records>,
}

impl Told {
    /// With no records.
    pub fn new(ended: Option<Stop>, count: u64) -> Told
        ensures ended { result.ended ≡ ended }
        ensures count { result.count ≡ count }
    {
        Told {
            ended,
            count,
            spare: None,
        }
    }
}
