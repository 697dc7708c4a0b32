//! What a table says of a run.
ghost use Rattle.std.specs.Prelude.{◌≡◌, ◌++◌, [], ℕ, List, IfOk, OnOk};
ghost use Rattle.event_key.specs.declared.key.Key.{Key};
ghost use Rattle.model_core.specs.declared.note.Note.{Note};
ghost use Rattle.run_tally.specs.Tallies.{AreOfRun};
ghost use Rattle.replications.specs.Ends.{RowsOf};
ghost use Rattle.replications.specs.RowSums.{AddsAll, AddsOne, CanAdd, CanAddAll, SumUpRun};

use crate::rows::RunEnd;
use event_key::Key;
use model_core::model::Model as SimulationModel;
use model_core::{OutOfMemory, Part, RecordBuffer};
use sim_spec::Terms;
use std::alloc::Global;

/// What is summed up of a run of a model within a window of time, record by record, and the rows that say it in the end.
/// Unlike a tally it is told where the window begins, and which seed was drawn by.
pub trait Rows<M: SimulationModel>: std::marker::Send + Sync + Drop {
    /// The rows.
    ghost rows_of: { M → RowsOf };

    /// That it has summed up these records, in a window that begins at a tick.
    ghost sums_up: { M → ℕ → Self → List (Key × Note) → Type 0 };

    /// What is kept of no record, in a window that begins at a tick. This alone takes memory, and the one error is that there was
    /// none.
    fn new(alloc: Global, model: &M, first_tick: u64) -> Result<Self, OutOfMemory>
        ensures { IfOk result (λ rows. sums_up model.now first_tick rows []) };

    /// One record more. It takes no memory, and should take time for its own parts alone.
    fn add(&mut self, model: &M, key: &Key, parts: &[Part])
        requires { CanAdd (sums_up model.now) (M.meaning model.now) self.old (key.now, parts.now) }
        ensures { AddsOne (sums_up model.now) (M.meaning model.now) self.old self.new (key.now, parts.now) };

    /// Appends the rows, once the run has ended so. Where memory runs out, it may have appended some of them.
    fn put(
        &self,
        alloc: Global,
        model: &M,
        terms: &Terms,
        end: &RunEnd,
        into: &mut Vec<u8>,
    ) -> Result<(), OutOfMemory>
        requires { SumUpRun (sums_up model.now) (M.meaning model.now) self.now terms.now end.now.stop }
        ensures { OnOk result ((first_tick : ℕ) (records : List (Key × Note)) → sums_up model.now first_tick self.now records
            → AreOfRun (M.meaning model.now) terms.now records end.now.stop
            → into.new.items ≡ into.old.items ++ rows_of model.now first_tick terms.now end.now records) };
}

/// Adds all these records, in order.
pub fn add_all<M: SimulationModel, W: Rows<M>>(rows: &mut W, model: &M, records: &RecordBuffer)
    requires { CanAddAll (W.sums_up model.now) (M.meaning model.now) rows.old records.now.items }
    ensures { AddsAll (W.sums_up model.now) (M.meaning model.now) rows.old rows.new records.now.items }
{
    for i in 0..records.len() {
        let (key, parts) = records.at(i);
        rows.add(model, key, parts);
    }
}
