//! The top table, and the whole text.
ghost use Rattle.std.specs.Prelude.{◌≡◌, Ok, IfOk, IfErr};
ghost use Rattle.toml.specs.View.{view, table_view};
ghost use Rattle.shop_model.specs.Views.{parts_of, counted_from};
ghost use Rattle.text_fields.specs.Checks.{Gives, Fails};
ghost use Rattle.shop_text.specs.ShopTexts.{is_first, model_of_shop, shop_of_text, shop_read, top, shop_text};

use crate::body::body;
use event_key::LAST_TICK;
use model_core::{MOST_EVENTS, MOST_TEXT_BYTES};
use shop_model::Shop;
use sim_spec::Terms;
use std::alloc::Global;
use text_fields::{
    Cause, Refusal, number_or, only, required, required_number, required_text, terms_of, tree,
};
use toml::{Table, Value};

/// The greatest seed: 2^63 - 1.
const MOST_SEED: u64 = 9_223_372_036_854_775_807;

/// Refuses a text of another format than the first.
fn is_first(value: &Value) -> Result<(), Refusal>
    ensures { Gives (λ _. tt) result (is_first (view value.now)) }
{
    match value.as_integer() {
        Some(1) => Ok(()),
        _ => Err(Cause::BadValue.at(0)),
    }
}

/// The top table, and then its arrays.
#[tactic(auto, unfolding(crate::specs::ShopTexts::top))]
fn top(alloc: Global, table: &Table) -> Result<(Shop, Terms), Refusal>
    ensures { Gives (λ read. shop_read (parts_of read.0) read.1 (counted_from read.0)) result (top (table_view table.now)) }
{
    is_first(required(table, "format", 0)?)?;
    if required_text(table, "model", 0)? != "shop" {
        return Err(Cause::BadValue.at(0));
    }
    let end = required_number(table, "end", 0, 0, LAST_TICK)?;
    let seed = number_or(table, "seed", 0, 0, 0, MOST_SEED)?;
    let limit = number_or(table, "limit", 0, 10_000_000, 1, MOST_EVENTS)?;
    let from = number_or(table, "from", 0, 0, 0, LAST_TICK)?;
    only(
        table,
        &[
            "format", "model", "end", "seed", "limit", "from", "station", "class",
        ],
        0,
    )?;
    let shop = body(alloc, table, seed)?;
    Ok((shop.counting_from(from), terms_of(end, limit)))
}

/// The shop and the terms of a text, or the first check that it fails. A refusal has the code of that check, from 1 to 7,
/// and the item that it speaks of. Item 0 is the top table. The stations and after them the classes are counted from 1.
#[tactic(auto, unfolding(crate::specs::ShopTexts::shop_text, crate::specs::ShopTexts::shop_of_text))]
pub fn read_shop(alloc: Global, bytes: &[u8]) -> Result<(Shop, Terms), Refusal>
    ensures read { IfOk result (λ read. shop_of_text bytes.now ≡ Ok (shop_read (parts_of read.0) read.1 (counted_from read.0))) }
    ensures refused { IfErr result (λ refusal. Fails refusal (shop_of_text bytes.now)) }
    ensures model { IfOk result (λ read. shop_text bytes.now ≡ Ok (model_of_shop (shop_read (parts_of read.0) read.1 (counted_from read.0)))) }
    ensures no_model { IfErr result (λ refusal. Fails refusal (shop_text bytes.now)) }
{
    if bytes.len() > MOST_TEXT_BYTES {
        return Err(Cause::TooLong.at(0));
    }
    let table = tree(alloc, bytes)?;
    top(alloc, &table)
}
