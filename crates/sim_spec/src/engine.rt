//! What every engine tells of itself.
ghost use Rattle.std.specs.Prelude.{◌≡◌};
ghost use Rattle.model_core.specs.Meaning.{Meaning};
ghost use Rattle.sim_spec.specs.declared.terms.Terms.{Terms};
ghost use Rattle.sim_spec.specs.Standing.{Standing, ended, IsCountAt};

use crate::stop::Stop;
use model_core::Records;

/// An engine that simulates cycle by cycle: a bucket of events below one event horizon, and then the next one.
///
/// Its cycle is a closure over it and no method here: one that starts threads needs a runtime, which no engine holds.
pub trait Engine {
    /// What its model means.
    ghost meaning: { Self → Meaning };

    /// How far its simulation goes.
    ghost terms: { Self → Terms };

    /// That it stands there. What nodes hold stands for a state, and no function computes it.
    ghost stands_at: { Self → Standing → Type 0 };

    /// Why no cycle comes any more, where none does: the end or the limit is met, or the last bucket ended at a fault.
    fn ended(&self) -> Option<Stop>
        ensures { (at : Standing) → stands_at self.now at → result ≡ ended (meaning self.now) (terms self.now) at };

    /// How many events are done. An engine that is spent has no count that is told.
    fn count(&self) -> u64
        ensures { (at : Standing) → stands_at self.now at → IsCountAt at result };

    /// Takes back the records of a bucket that nobody reads any more, so that their room serves a later one.
    fn give_back(&mut self, records: Records)
        ensures meaning { meaning self.new ≡ meaning self.old }
        ensures terms { terms self.new ≡ terms self.old }
        ensures stands { (at : Standing) → stands_at self.old at → stands_at self.new at };
}
