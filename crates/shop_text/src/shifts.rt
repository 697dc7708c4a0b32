//! The shifts of a station.
ghost use Rattle.std.specs.Prelude.{◌≡◌, ◌<◌, ◌≤◌, ◌+◌, All, AllPairs, IfOk, length};
ghost use Rattle.toml.specs.View.{view, items_view, table_view};
ghost use Rattle.shop_model.specs.ShopParts.{most_open};
ghost use Rattle.text_fields.specs.Checks.{Gives};
ghost use Rattle.shop_text.specs.Ranges.{IsShift, IsTimetable};
ghost use Rattle.shop_text.specs.StationTexts.{shift, shifts_from, comes_early, timetable};

use model_core::Sequence;
use random_streams::MOST_VALUE;
use shop_model::{MOST_OPEN, MOST_SHIFTS, Shift};
use std::alloc::Global;
use text_fields::{
    Cause, Refusal, only, optional_array, optional_number, required_number, table_of,
};
use toml::{Table, Value};

/// The shifts of a station, each later than the one before, and after how many ticks they come again.
#[derive(Drop)]
pub(crate) struct Timetable {
    pub(crate) shifts: Sequence<Shift>,
    pub(crate) period: Option<u64>,
}

/// A shift, and the tick at which the next one begins at the earliest.
#[tactic(auto, unfolding(crate::specs::StationTexts::shift))]
fn shift(value: &Value, earliest: u64, item: u32) -> Result<(Shift, u64), Refusal>
    ensures read { Gives (λ read. read) result (shift item earliest (view value.now)) }
    ensures in_range { IfOk result (λ read. IsShift read.0) }
    ensures later { IfOk result (λ read. earliest ≤ read.0.at) }
    ensures next { IfOk result (λ read. read.1 ≡ read.0.at + 1) }
{
    let table = table_of(value, item)?;
    let at = required_number(table, "at", item, 0, MOST_VALUE)?;
    let most = u64::from(MOST_OPEN);
    let servers = required_number(table, "servers", item, 0, most)? as u32;
    only(table, &["at", "servers"], item)?;
    if at < earliest {
        return Err(Cause::BadValue.at(item));
    }
    Ok((Shift { at, servers }, at + 1))
}

/// The shifts of an array, and the tick at which one more begins at the earliest.
fn shifts(alloc: Global, values: &[Value], item: u32) -> Result<(Vec<Shift>, u64), Refusal>
    ensures read { Gives (λ read. (read.0.items, read.1)) result (shifts_from item (items_view values.now)) }
    ensures count { IfOk result (λ read. length read.0.items ≡ length values.now) }
    ensures in_range { IfOk result (λ read. All IsShift read.0.items) }
    ensures rising { IfOk result (λ read. AllPairs (λ (a b : Shift). a.at < b.at) read.0.items) }
    ensures before { IfOk result (λ read. All (λ (shift : Shift). shift.at < read.1) read.0.items) }
{
    let mut shifts = Vec::new(alloc);
    let mut next = 0;
    for value in values {
        let (shift, later) = shift(value, next, item)?;
        shifts.push(shift)?;
        next = later;
    }
    Ok((shifts, next))
}

/// Whether shifts come again before the last of them has begun, where one more may begin at this tick.
fn comes_early(period: Option<u64>, next: u64) -> bool
    ensures { result ≡ comes_early period next }
{
    match period {
        Some(period) => period < next,
        None => false,
    }
}

/// The shifts, and after how long they come again.
#[tactic(auto, unfolding(crate::specs::StationTexts::timetable))]
pub(crate) fn read_timetable(alloc: Global, table: &Table, item: u32) -> Result<Timetable, Refusal>
    ensures read { Gives (λ timetable. timetable) result (timetable item (table_view table.now)) }
    ensures in_range { IfOk result IsTimetable }
{
    let values = optional_array(table, "shifts", item, MOST_SHIFTS)?;
    let (shifts, next) = shifts(alloc, values, item)?;
    let period = optional_number(table, "period", item, 1, MOST_VALUE)?;
    if comes_early(period, next) {
        return Err(Cause::BadValue.at(item));
    }
    Ok(Timetable {
        shifts: Sequence::new(shifts),
        period,
    })
}

/// The most servers that are ever open.
pub(crate) fn most_open(servers: u32, shifts: &[Shift]) -> u32
    ensures { result ≡ most_open servers shifts.now }
{
    let mut most = servers;
    for shift in shifts {
        most = most.max(shift.servers);
    }
    most
}
