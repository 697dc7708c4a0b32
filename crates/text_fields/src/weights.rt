//! The arrays of a choice: those among which it is, and their weights.
ghost use Rattle.std.specs.Prelude.{◌≡◌, ◌≤◌, nat_le, length, IfOk, IsTrue};
ghost use Rattle.std.specs.List.{list_all};
ghost use Rattle.random_streams.specs.declared.shares.TheConstants.{MOST_SHARES};
ghost use Rattle.random_streams.specs.declared.weights.TheConstants.{MOST_WEIGHT, MOST_WEIGHTS};
ghost use Rattle.toml.specs.Data.{get_member};
ghost use Rattle.toml.specs.View.{view, items_view, table_view};
ghost use Rattle.random_streams.specs.Laws.{is_choice};
ghost use Rattle.random_streams.specs.Shares.{are_shares};
ghost use Rattle.text_fields.specs.Checks.{Gives};
ghost use Rattle.text_fields.specs.Fields.{number, each};
ghost use Rattle.text_fields.specs.Weights.{ways, weights, weights_or_ones};

use crate::fields::{array_of, entries_of, field, item_count, number};
use crate::names::names_of;
use crate::refusal::{Cause, Refusal};
use model_core::{Name, Sequence};
use random_streams::{MOST_WEIGHT, MOST_WEIGHTS, Shares, Weights, are_shares};
use std::alloc::Global;
use toml::{Table, Value};

/// The names of the objects to which a router sends.
#[tactic(auto, unfolding(crate::specs::Weights::ways))]
pub fn ways(alloc: Global, value: &Value, item: u32) -> Result<Sequence<Name>, Refusal>
    ensures read { Gives (λ names. names) result (ways item (view value.now)) }
    ensures some { IfOk result (λ names. 1 ≤ length names) }
    ensures few { IfOk result (λ names. length names ≤ MOST_WEIGHTS) }
{
    let values = array_of(value, item, MOST_WEIGHTS)?;
    if item_count(values) == 0 {
        return Err(Cause::BadValue.at(item));
    }
    Ok(Sequence::new(names_of(alloc, values, item)?))
}

/// The weights of an array.
fn numbers(alloc: Global, values: &[Value], item: u32) -> Result<Vec<u32>, Refusal>
    ensures read { Gives (λ numbers. numbers.items) result (each (number item 0 MOST_WEIGHT) (items_view values.now)) }
    ensures count { IfOk result (λ numbers. length numbers.items ≡ length values.now) }
    ensures small { IfOk result (λ numbers. IsTrue (list_all (λ n. nat_le n MOST_WEIGHT) numbers.items)) }
{
    let mut numbers = Vec::new(alloc);
    for value in values {
        numbers.push(number(value, item, 0, u64::from(MOST_WEIGHT))? as u32)?;
    }
    Ok(numbers)
}

/// So many weights, not all of them 0.
#[tactic(auto, unfolding(crate::specs::Weights::weights, random_streams::specs::Shares::are_shares))]
fn weights(alloc: Global, value: &Value, item: u32, count: usize) -> Result<Vec<u32>, Refusal>
    requires some { 1 ≤ count }
    requires few { count ≤ MOST_SHARES }
    ensures read { Gives (λ list. list.items) result (weights item count (view value.now)) }
    ensures count { IfOk result (λ list. length list.items ≡ count) }
    ensures shares { IfOk result (λ list. IsTrue (are_shares list.items)) }
{
    let values = entries_of(value, item)?;
    if item_count(values) != count {
        return Err(Cause::BadValue.at(item));
    }
    let list = numbers(alloc, values, item)?;
    if !are_shares(&list) {
        return Err(Cause::BadValue.at(item));
    }
    Ok(list)
}

/// So many weights, all 1 where they are absent.
fn weights_or_ones(
    alloc: Global,
    table: &Table,
    key: &str,
    item: u32,
    count: usize,
) -> Result<Vec<u32>, Refusal>
    requires some { 1 ≤ count }
    requires few { count ≤ MOST_SHARES }
    ensures read { Gives (λ list. list.items) result (weights_or_ones item count (get_member key.now (table_view table.now))) }
    ensures count { IfOk result (λ list. length list.items ≡ count) }
    ensures shares { IfOk result (λ list. IsTrue (are_shares list.items)) }
{
    match field(table, key) {
        Some(value) => weights(alloc, value, item, count),
        None => Ok(vec![in alloc; 1; count]?),
    }
}

/// The weights of a choice among so many, all 1 where they are absent.
#[tactic(auto, unfolding(random_streams::specs::Laws::is_choice, random_streams::specs::Shares::are_shares))]
pub fn optional_weights(
    alloc: Global,
    table: &Table,
    key: &str,
    item: u32,
    count: usize,
) -> Result<Weights, Refusal>
    requires some { 1 ≤ count }
    requires few { count ≤ MOST_WEIGHTS }
    ensures read { Gives (λ list. list) result (weights_or_ones item count (get_member key.now (table_view table.now))) }
    ensures count { IfOk result (λ list. length list ≡ count) }
    ensures choice { IfOk result (λ list. IsTrue (is_choice list)) }
{
    Ok(Weights::new(weights_or_ones(alloc, table, key, item, count)?))
}

/// The same for a choice among more.
pub fn optional_shares(
    alloc: Global,
    table: &Table,
    key: &str,
    item: u32,
    count: usize,
) -> Result<Shares, Refusal>
    requires some { 1 ≤ count }
    requires few { count ≤ MOST_SHARES }
    ensures read { Gives (λ list. list) result (weights_or_ones item count (get_member key.now (table_view table.now))) }
    ensures count { IfOk result (λ list. length list ≡ count) }
    ensures shares { IfOk result (λ list. IsTrue (are_shares list)) }
{
    let weights = weights_or_ones(alloc, table, key, item, count)?;
    Ok(Shares::new(alloc, weights)?)
}
