//! A model under every seed.
ghost use Rattle.std.specs.Prelude.{◌≡◌, ◌<◌, ◌^◌, ℕ, IfOk};
ghost use Rattle.std.specs.Arc.{arc_value};
ghost use Rattle.model_core.specs.Meaning.{Meaning};
ghost use Rattle.replications.specs.Ends.{RowsOf};

use crate::run_rows::Rows;
use model_core::OutOfMemory;
use model_core::model::Model as SimulationModel;
use std::alloc::Global;
use std::sync::Arc;

/// A model that can be had with any seed in place of its own, and what a table says of its runs.
pub trait Seeds<M: SimulationModel, W: Rows<M>>: std::marker::Send + Sync + Drop {
    /// What the model with a seed means.
    ghost seeded: { Self → ℕ → Meaning };

    /// What the rows of the model with a seed are.
    ghost rows: { Self → ℕ → RowsOf };

    /// The model with a seed, which is below 2^63. The one error is that memory ran out.
    fn with_seed(&self, alloc: Global, seed: u64) -> Result<Arc<M>, OutOfMemory>
        requires { seed < 2 ^ 63 }
        ensures meaning { IfOk result (λ model. M.meaning (arc_value model) ≡ seeded self.now seed) }
        ensures rows { IfOk result (λ model. W.rows_of (arc_value model) ≡ rows self.now seed) };
}
