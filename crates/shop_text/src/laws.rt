//! Laws of delays.
ghost use Rattle.std.specs.Prelude.{◌≡◌, ◌≤◌, ◌+◌, IfOk, OnOk, IsTrue, length};
ghost use Rattle.std.specs.Option.{ForSome};
ghost use Rattle.toml.specs.Data.{get_member};
ghost use Rattle.toml.specs.View.{view, table_view};
ghost use Rattle.random_streams.specs.declared.shares.TheConstants.{MOST_SHARES};
ghost use Rattle.random_streams.specs.declared.delay_law.DelayLaw.TheVariants.{Plain};
ghost use Rattle.random_streams.specs.Delays.{are_values, do_rise, is_delay_law};
ghost use Rattle.random_streams.specs.Laws.{is_delay};
ghost use Rattle.text_fields.specs.Checks.{Gives};
ghost use Rattle.shop_text.specs.LawTexts.{geometric_law, amounts, table_law, rising, steps_law, delay_law, required_law, optional_law};

use random_streams::{
    DelayLaw, Divisor, Law, MOST_SHARES, MOST_TRIALS, MOST_UNIT, MOST_VALUE, PreparedLaw, Values,
};
use std::alloc::Global;
use text_fields::{
    Cause, Refusal, array_of, field, fixed_law, item_count, number_or, numbers_of, only,
    optional_shares, required, required_number, required_text, table_of, uniform_law,
};
use toml::{Table, Value};

/// How far a bound may lie above the one before: 2^32.
const MOST_STEP: u64 = 4_294_967_296;

/// A law that counts in ticks.
fn plain(law: Law) -> DelayLaw
    requires { IsTrue (is_delay law) }
    ensures value { result ≡ Plain law }
    ensures delay { IsTrue (is_delay_law result) }
{
    DelayLaw::Plain {
        law: PreparedLaw::new(law),
    }
}

/// The law of the first trial that succeeds, in units.
#[tactic(auto, unfolding(crate::specs::LawTexts::geometric_law, random_streams::specs::Delays::is_delay_law, random_streams::specs::Laws::is_delay, random_streams::specs::Laws::is_drawable))]
fn geometric_law(table: &Table, item: u32) -> Result<DelayLaw, Refusal>
    ensures read { Gives (λ law. law) result (geometric_law item (table_view table.now)) }
    ensures delay { IfOk result (λ law. IsTrue (is_delay_law law)) }
{
    let p = required_number(table, "p", item, 1, 4_294_967_295)? as u32;
    let most = u64::from(MOST_TRIALS);
    let cap = required_number(table, "cap", item, 1, most)? as u32;
    let unit = number_or(table, "unit", item, 1, 1, MOST_UNIT)?;
    only(table, &["law", "p", "cap", "unit"], item)?;
    if unit == 1 {
        return Ok(plain(Law::Geometric { p, cap }));
    }
    let unit = Divisor::new(unit);
    Ok(DelayLaw::Spread { p, cap, unit })
}

/// So many values of a law.
#[tactic(auto, unfolding(crate::specs::LawTexts::amounts, random_streams::specs::Delays::are_values))]
fn amounts(
    alloc: Global,
    value: &Value,
    item: u32,
    least: usize,
    most: usize,
) -> Result<Values, Refusal>
    ensures read { Gives (λ values. values) result (amounts item least most (view value.now)) }
    ensures least { IfOk result (λ values. least ≤ length values) }
    ensures most { IfOk result (λ values. length values ≤ most) }
    ensures values { IfOk result (λ values. IsTrue (are_values values)) }
{
    let values = array_of(value, item, most)?;
    if item_count(values) < least {
        return Err(Cause::BadValue.at(item));
    }
    Ok(Values::new(numbers_of(alloc, values, item, MOST_VALUE)?))
}

/// The law of one of several values.
#[tactic(auto, unfolding(crate::specs::LawTexts::table_law, random_streams::specs::Delays::is_delay_law))]
fn table_law(alloc: Global, table: &Table, item: u32) -> Result<DelayLaw, Refusal>
    ensures read { Gives (λ law. law) result (table_law item (table_view table.now)) }
    ensures delay { IfOk result (λ law. IsTrue (is_delay_law law)) }
{
    let values = required(table, "values", item)?;
    let values = amounts(alloc, values, item, 1, MOST_SHARES)?;
    let count = values.as_slice().len();
    let weights = optional_shares(alloc, table, "weights", item, count)?;
    only(table, &["law", "values", "weights"], item)?;
    Ok(DelayLaw::Table { values, weights })
}

/// Refuses the first bound that isn't above the one before, or too far above it.
fn rising(bounds: &[u64], item: u32) -> Result<(), Refusal>
    ensures read { Gives (λ _. tt) result (rising item bounds.now) }
    ensures rise { OnOk result (IsTrue (do_rise bounds.now)) }
{
    for at in 1..bounds.len() {
        let (before, bound) = (bounds[at - 1], bounds[at]);
        if bound <= before {
            return Err(Cause::BadValue.at(item));
        }
        if bound - before > MOST_STEP {
            return Err(Cause::Limit.at(item));
        }
    }
    Ok(())
}

/// The law of numbers between neighbours of bounds.
#[tactic(auto, unfolding(crate::specs::LawTexts::steps_law, random_streams::specs::Delays::is_delay_law))]
fn steps_law(alloc: Global, table: &Table, item: u32) -> Result<DelayLaw, Refusal>
    ensures read { Gives (λ law. law) result (steps_law item (table_view table.now)) }
    ensures delay { IfOk result (λ law. IsTrue (is_delay_law law)) }
{
    let bounds = required(table, "bounds", item)?;
    let bounds = amounts(alloc, bounds, item, 2, MOST_SHARES + 1)?;
    rising(bounds.as_slice(), item)?;
    let count = bounds.as_slice().len() - 1;
    let weights = optional_shares(alloc, table, "weights", item, count)?;
    only(table, &["law", "bounds", "weights"], item)?;
    Ok(DelayLaw::Steps { bounds, weights })
}

/// A law of any name.
#[tactic(auto, unfolding(crate::specs::LawTexts::delay_law))]
pub(crate) fn delay_law(alloc: Global, value: &Value, item: u32) -> Result<DelayLaw, Refusal>
    ensures read { Gives (λ law. law) result (delay_law item (view value.now)) }
    ensures delay { IfOk result (λ law. IsTrue (is_delay_law law)) }
{
    let table = table_of(value, item)?;
    let name = required_text(table, "law", item)?;
    match name {
        "fixed" => Ok(plain(fixed_law(table, item)?)),
        "uniform" => Ok(plain(uniform_law(table, item)?)),
        "geometric" => geometric_law(table, item),
        "table" => table_law(alloc, table, item),
        "steps" => steps_law(alloc, table, item),
        _ => Err(Cause::BadValue.at(item)),
    }
}

/// The law at a key that has to be there.
pub(crate) fn required_law(
    alloc: Global,
    table: &Table,
    key: &str,
    item: u32,
) -> Result<DelayLaw, Refusal>
    ensures read { Gives (λ law. law) result (required_law item key.now (table_view table.now)) }
    ensures delay { IfOk result (λ law. IsTrue (is_delay_law law)) }
{
    delay_law(alloc, required(table, key, item)?, item)
}

/// The law at a key, or none where the key is absent.
pub(crate) fn optional_law(
    alloc: Global,
    table: &Table,
    key: &str,
    item: u32,
) -> Result<Option<DelayLaw>, Refusal>
    ensures read { Gives (λ law. law) result (optional_law item (get_member key.now (table_view table.now))) }
    ensures delay { IfOk result (λ law. ForSome law (λ law. IsTrue (is_delay_law law))) }
{
    match field(table, key) {
        Some(value) => Ok(Some(delay_law(alloc, value, item)?)),
        None => Ok(None),
    }
}
