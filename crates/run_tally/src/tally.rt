//! What is summed up of a run.
ghost use Rattle.std.specs.Prelude.{◌++◌, ◌∷◌, [], ℕ, List, IfOk, OnOk, ◌≡◌};
ghost use Rattle.event_key.specs.declared.key.Key.{Key};
ghost use Rattle.model_core.specs.declared.note.Note.{Note};
ghost use Rattle.sim_spec.specs.declared.terms.Terms.{Terms};
ghost use Rattle.run_tally.specs.Tallies.{TotalsOf, CanCome, AreOfRun};

use event_key::Key;
use model_core::model::Model;
use model_core::{OutOfMemory, Part};
use sim_spec::{Stop, Terms};
use std::alloc::Global;

/// What is summed up of a run of a model, record by record, and how it is printed in the end.
pub trait Tally<M: Model>: Drop {
    /// The lines over the records of a run and why it stopped. They may say what no meaning of a model says, as from which
    /// tick on is counted.
    ghost lines: { M → Terms → TotalsOf };

    /// That it has summed up these records. What is kept need not be a function of them.
    ghost sums_up: { M → Self → List (Key × Note) → Type 0 };

    /// What is kept of no record. This alone takes memory.
    fn new(alloc: Global, model: &M) -> Result<Self, OutOfMemory>
        ensures { IfOk result (λ tally. sums_up model.now tally []) };

    /// One record more. It takes no memory, and should take time for its own parts alone.
    fn add(&mut self, model: &M, key: &Key, parts: &[Part])
        requires { (records : List (Key × Note)) × sums_up model.now self.old records × CanCome (M.meaning model.now) records (key.now, parts.now) }
        ensures { (records : List (Key × Note)) → sums_up model.now self.old records → CanCome (M.meaning model.now) records (key.now, parts.now)
            → sums_up model.now self.new (records ++ (key.now, parts.now) ∷ []) };

    /// Appends the lines, once the run has stopped. Where memory runs out, it may have appended some of them.
    fn put(
        &self,
        alloc: Global,
        model: &M,
        terms: &Terms,
        stop: &Stop,
        into: &mut Vec<u8>,
    ) -> Result<(), OutOfMemory>
        requires { (records : List (Key × Note)) × sums_up model.now self.now records × AreOfRun (M.meaning model.now) terms.now records stop.now }
        ensures { OnOk result ((records : List (Key × Note)) → sums_up model.now self.now records → AreOfRun (M.meaning model.now) terms.now records stop.now
            → into.new.items ≡ into.old.items ++ lines model.now terms.now records stop.now) };
}
