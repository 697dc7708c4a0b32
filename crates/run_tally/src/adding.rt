//! Many records.
ghost use Rattle.std.specs.Prelude.{◌++◌, ℕ, List};
ghost use Rattle.event_key.specs.declared.key.Key.{Key};
ghost use Rattle.model_core.specs.declared.note.Note.{Note};
ghost use Rattle.run_tally.specs.Tallies.{CanAllCome};

use crate::tally::Tally;
use model_core::RecordBuffer;
use model_core::model::Model;

/// Adds all these records, in order.
pub fn add_all<M: Model, L: Tally<M>>(tally: &mut L, model: &M, records: &RecordBuffer)
    requires { (before : List (Key × Note)) × L.sums_up model.now tally.old before × CanAllCome (M.meaning model.now) before records.now.items }
    ensures { (before : List (Key × Note)) → L.sums_up model.now tally.old before → CanAllCome (M.meaning model.now) before records.now.items
        → L.sums_up model.now tally.new (before ++ records.now.items) }
{
    for i in 0..records.len() {
        let (key, parts) = records.at(i);
        tally.add(model, key, parts);
    }
}
