//! Laws.
ghost use Rattle.std.specs.Prelude.{IfOk, IsTrue};
ghost use Rattle.toml.specs.View.{view, table_view};
ghost use Rattle.random_streams.specs.Laws.{is_delay};
ghost use Rattle.text_fields.specs.Checks.{Gives};
ghost use Rattle.text_fields.specs.LawTexts.{fixed_law, uniform_law, geometric_law, law, required_law};

use crate::fields::{only, required, required_number, required_text, table_of};
use crate::refusal::{Cause, Refusal};
use random_streams::{Law, MOST_TRIALS, MOST_VALUE};
use toml::{Table, Value};

/// How far the greatest value of a uniform law may lie above its least.
const MOST_WIDTH: u64 = 4_294_967_295;

/// The law that always gives one value.
#[tactic(auto, unfolding(crate::specs::LawTexts::fixed_law, random_streams::specs::Laws::is_delay, random_streams::specs::Laws::is_drawable))]
pub fn fixed_law(table: &Table, item: u32) -> Result<Law, Refusal>
    ensures read { Gives (λ law. law) result (fixed_law item (table_view table.now)) }
    ensures delay { IfOk result (λ law. IsTrue (is_delay law)) }
{
    let value = required_number(table, "value", item, 0, MOST_VALUE)?;
    only(table, &["law", "value"], item)?;
    Ok(Law::Fixed { value })
}

/// The law of numbers that are drawn evenly.
#[tactic(auto, unfolding(crate::specs::LawTexts::uniform_law, random_streams::specs::Laws::is_delay, random_streams::specs::Laws::is_drawable))]
pub fn uniform_law(table: &Table, item: u32) -> Result<Law, Refusal>
    ensures read { Gives (λ law. law) result (uniform_law item (table_view table.now)) }
    ensures delay { IfOk result (λ law. IsTrue (is_delay law)) }
{
    let low = required_number(table, "low", item, 0, MOST_VALUE)?;
    let high = required_number(table, "high", item, 0, MOST_VALUE)?;
    if high < low {
        return Err(Cause::BadValue.at(item));
    }
    if high - low > MOST_WIDTH {
        return Err(Cause::Limit.at(item));
    }
    only(table, &["law", "low", "high"], item)?;
    Ok(Law::Uniform { low, high })
}

/// The law of the first trial that succeeds.
#[tactic(auto, unfolding(crate::specs::LawTexts::geometric_law, random_streams::specs::Laws::is_delay, random_streams::specs::Laws::is_drawable))]
fn geometric_law(table: &Table, item: u32) -> Result<Law, Refusal>
    ensures read { Gives (λ law. law) result (geometric_law item (table_view table.now)) }
    ensures delay { IfOk result (λ law. IsTrue (is_delay law)) }
{
    let p = required_number(table, "p", item, 1, 4_294_967_295)?;
    let cap = required_number(table, "cap", item, 1, u64::from(MOST_TRIALS))?;
    only(table, &["law", "p", "cap"], item)?;
    Ok(Law::Geometric {
        p: p as u32,
        cap: cap as u32,
    })
}

/// A law of any name.
#[tactic(auto, unfolding(crate::specs::LawTexts::law))]
pub fn law(value: &Value, item: u32) -> Result<Law, Refusal>
    ensures read { Gives (λ law. law) result (law item (view value.now)) }
    ensures delay { IfOk result (λ law. IsTrue (is_delay law)) }
{
    let table = table_of(value, item)?;
    let name = required_text(table, "law", item)?;
    if name == "fixed" {
        return fixed_law(table, item);
    }
    if name == "uniform" {
        return uniform_law(table, item);
    }
    if name == "geometric" {
        return geometric_law(table, item);
    }
    Err(Cause::BadValue.at(item))
}

/// A law of any name, at a key that has to be there.
pub fn required_law(table: &Table, key: &str, item: u32) -> Result<Law, Refusal>
    ensures read { Gives (λ law. law) result (required_law item key.now (table_view table.now)) }
    ensures delay { IfOk result (λ law. IsTrue (is_delay law)) }
{
    law(required(table, key, item)?, item)
}
