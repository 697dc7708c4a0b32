//! The sums of a class at a station.
ghost use Rattle.std.specs.Prelude.{◌≡◌, ◌<◌, ◌≤◌, ◌+◌, ◌^◌, ◌++◌, ◌∷◌, [], ℕ, List};
ghost use Rattle.shop_totals.specs.Told.{TimedPart};
ghost use Rattle.shop_totals.specs.Sums.{ticks_waited, visit_sums_of, IsVisitWithin};

use crate::flow::Flow;
use model_core::{CALLED_WORD, Part, RENEGED_WORD};

/// What is summed up of the jobs of a class at a station: what came of them, and for how many ticks they waited.
#[derive(Clone, Copy, Debug, PartialEq, Eq)]
pub struct VisitSums {
    pub flow: Flow,
    pub waited: u128,
}

/// For how many ticks a job waited, as a part tells it.
fn ticks_waited(part: Part) -> u64
    ensures { result ≡ ticks_waited part }
{
    match part.word {
        CALLED_WORD | RENEGED_WORD => part.b,
        _ => 0,
    }
}

impl VisitSums {
    /// Nothing was told yet.
    #[tactic(auto, unfolding(crate::specs::Sums::visit_sums_of, crate::specs::Flows::flow_of))]
    pub fn new() -> VisitSums
        ensures sums { result ≡ visit_sums_of [] }
        ensures within { IsVisitWithin 0 result }
    {
        VisitSums {
            flow: Flow::none(),
            waited: 0,
        }
    }

    /// A part is told that counts.
    pub fn and(self, part: Part) -> VisitSums
        requires room { IsVisitWithin (2 ^ 62) self }
        ensures within { (parts : ℕ) → IsVisitWithin parts self → IsVisitWithin (parts + 1) result }
        ensures sums { (told : List TimedPart) (time : ℕ) → self ≡ visit_sums_of told
            → result ≡ visit_sums_of (told ++ record { time = time; part = part } ∷ []) }
    {
        VisitSums {
            flow: self.flow.and(part.word),
            waited: self.waited + u128::from(ticks_waited(part)),
        }
    }
}
