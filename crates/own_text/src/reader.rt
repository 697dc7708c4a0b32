//! The text of a token ring.
ghost use Rattle.std.specs.Prelude.{◌≡◌};
ghost use Rattle.toml.specs.View.{table_view};
ghost use Rattle.model_reader.specs.Checks.{Gives};
ghost use Rattle.own_text.specs.RingTexts.{ring_of, ring_read, ring_texts, ring_texts_laws};

use crate::tally::RingTally;
use event_key::LAST_TICK;
use model_core::model::Model as SimulationModel;
use model_core::{MOST_EVENTS, MOST_OBJECTS};
use model_reader::{ModelReader, Refusal};
use own_model::Ring;
use sim_spec::Terms;
use std::alloc::Global;
use text_fields::{code_name, document, only, required_law, required_number, terms_of};
use toml::Table;

/// The greatest seed, 2^63 - 1: a whole number of TOML is no greater.
const MOST_SEED: u64 = 9_223_372_036_854_775_807;

/// The reader of token rings.
#[derive(Clone, Copy)]
pub struct RingTexts;

/// The ring of a table, and how far its simulation goes. A refusal is at item 0.
#[tactic(auto, unfolding(crate::specs::RingTexts::ring_of))]
fn ring_of(table: &Table) -> Result<(Ring, Terms), Refusal>
    ensures { Gives (λ read. ring_read (⟦<Ring as SimulationModel>⟧.meaning read.0) read.1) result (ring_of (table_view table.now)) }
{
    let stations = required_number(table, "stations", 0, 1, u64::from(MOST_OBJECTS))? as u32;
    let hold = required_law(table, "hold", 0)?;
    let patience = required_number(table, "patience", 0, 0, LAST_TICK)?;
    let end = required_number(table, "end", 0, 0, LAST_TICK)?;
    let seed = required_number(table, "seed", 0, 0, MOST_SEED)?;
    only(table, &["stations", "hold", "patience", "end", "seed"], 0)?;
    let ring = Ring {
        seed,
        stations,
        hold,
        patience,
    };
    Ok((ring, terms_of(end, MOST_EVENTS)))
}

#[tactic(auto, unfolding(crate::specs::RingTexts::said))]
impl ModelReader for RingTexts {
    type Model = Ring;

    type Tally = RingTally;

    ghost reading = { ring_texts };

    ghost laws = { ring_texts_laws };

    fn read(&self, alloc: Global, bytes: &[u8]) -> Result<(Ring, Terms), Refusal> {
        let table = document(alloc, bytes)?;
        ring_of(&table)
    }

    fn code_name(&self, code: u8) -> &'static str {
        code_name(code)
    }
}
