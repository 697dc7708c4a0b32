//! What `totals` tells of a ring.
use event_key::Key;
use model_core::{OutOfMemory, Part};
use own_model::Ring;
use run_tally::Tally;
use sim_spec::{Stop, Terms};
use std::alloc::Global;

/// How often the token came to a station.
#[derive(Clone, Copy, Drop)]
pub struct RingTally {
    turns: u64,
}

impl Tally<Ring> for RingTally {
    ghost use Rattle.std.specs.Prelude.{◌≡◌, length};
    ghost use Rattle.own_text.specs.RingTotals.{ring_totals};

    ghost lines = { λ _ _. ring_totals };

    ghost sums_up = { λ _ tally records. tally.turns ≡ length records };

    fn new(_alloc: Global, _model: &Ring) -> Result<RingTally, OutOfMemory> {
        Ok(RingTally { turns: 0 })
    }

    fn add(&mut self, _model: &Ring, _key: &Key, _parts: &[Part]) {
        self.turns += 1;
    }

    fn put(
        &self,
        alloc: Global,
        _model: &Ring,
        _terms: &Terms,
        _stop: &Stop,
        into: &mut Vec<u8>,
    ) -> Result<(), OutOfMemory> {
        let line = format!(in alloc; "turns {}\n", self.turns)?;
        into.extend_from_slice(line.as_bytes())?;
        Ok(())
    }
}
