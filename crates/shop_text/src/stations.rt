//! The stations with their fields.
ghost use Rattle.std.specs.Prelude.{◌≡◌, ◌≤◌, ◌-◌, All, IfOk, codes, length};
ghost use Rattle.std.specs.Option.{ForSome};
ghost use Rattle.toml.specs.Data.{get_member};
ghost use Rattle.toml.specs.View.{view, items_view, table_view};
ghost use Rattle.model_core.specs.declared.limits.TheConstants.{MOST_OBJECTS};
ghost use Rattle.shop_model.specs.declared.station.TheConstants.{MOST_LINE, MOST_OPEN};
ghost use Rattle.shop_model.specs.HasStation.{AreBreakdowns};
ghost use Rattle.text_fields.specs.Checks.{Gives};
ghost use Rattle.text_fields.specs.Directories.{finder};
ghost use Rattle.shop_text.specs.Ranges.{IsStationText, LinksBelow};
ghost use Rattle.shop_text.specs.StationTexts.{order, desk, breakdowns, station_with, station_named, station, stations};

use crate::laws::optional_law;
use crate::shifts::{Timetable, most_open, read_timetable};
use model_core::Name;
use shop_model::{Breakdowns, MOST_LINE, MOST_OPEN, Order, Station};
use std::alloc::Global;
use text_fields::{
    Cause, Directory, Place, Refusal, field, number_or, only, required_name, table_of, text,
};
use toml::{Table, Value};

/// Who is called first: who came first, where the key is absent.
fn order(table: &Table, item: u32) -> Result<Order, Refusal>
    ensures { Gives (λ order. order) result (order item (get_member (codes "order") (table_view table.now))) }
{
    let Some(value) = field(table, "order") else {
        return Ok(Order::First);
    };
    match text(value, item)? {
        "first" => Ok(Order::First),
        "last" => Ok(Order::Last),
        "priority" => Ok(Order::Priority),
        _ => Err(Cause::BadValue.at(item)),
    }
}

/// How many servers a station has, how many jobs may wait there, and who is called first.
#[derive(Clone, Copy)]
struct Desk {
    servers: u32,
    line: u32,
    order: Order,
}

/// How many servers a station has, how many jobs may wait there, and who is called first.
#[tactic(auto, unfolding(crate::specs::StationTexts::desk))]
fn read_desk(table: &Table, item: u32) -> Result<Desk, Refusal>
    ensures read { Gives (λ desk. desk) result (desk item (table_view table.now)) }
    ensures servers { IfOk result (λ desk. desk.servers ≤ MOST_OPEN) }
    ensures line { IfOk result (λ desk. desk.line ≤ MOST_LINE) }
{
    let most = u64::from(MOST_OPEN);
    let servers = number_or(table, "servers", item, 1, 0, most)? as u32;
    let most = u64::from(MOST_LINE);
    let line = number_or(table, "line", item, most, 0, most)? as u32;
    let order = order(table, item)?;
    Ok(Desk {
        servers,
        line,
        order,
    })
}

/// For how long a station works and stands still.
#[tactic(auto, unfolding(crate::specs::StationTexts::breakdowns))]
fn breakdowns(alloc: Global, table: &Table, item: u32) -> Result<Option<Breakdowns>, Refusal>
    ensures read { Gives (λ laws. laws) result (breakdowns item (table_view table.now)) }
    ensures in_range { IfOk result (λ laws. ForSome laws AreBreakdowns) }
{
    let up = optional_law(alloc, table, "up", item)?;
    let down = optional_law(alloc, table, "down", item)?;
    match (up, down) {
        (Some(up), Some(down)) => Ok(Some(Breakdowns { up, down })),
        (None, None) => Ok(None),
        _ => Err(Cause::Missing.at(item)),
    }
}

/// A station whose line has one level.
fn station_with(
    name: Name,
    desk: Desk,
    timetable: Timetable,
    breakdowns: Option<Breakdowns>,
) -> Station
    ensures { result ≡ station_with name desk timetable breakdowns }
{
    Station {
        name,
        servers: desk.servers,
        most: most_open(desk.servers, timetable.shifts.as_slice()),
        line: desk.line,
        order: desk.order,
        levels: 1,
        shifts: timetable.shifts,
        period: timetable.period,
        breakdowns,
    }
}

/// The station with this name. Its line has one level until all classes are known.
#[tactic(auto, unfolding(crate::specs::StationTexts::station_named))]
fn station_named(alloc: Global, table: &Table, name: &str, item: u32) -> Result<Station, Refusal>
    ensures read { Gives (λ station. station) result (station_named item name.now (table_view table.now)) }
    ensures in_range { IfOk result IsStationText }
{
    let name = Name::of(alloc, name.as_bytes())?;
    let desk = read_desk(table, item)?;
    let timetable = read_timetable(alloc, table, item)?;
    let breakdowns = breakdowns(alloc, table, item)?;
    only(
        table,
        &[
            "name", "servers", "line", "order", "shifts", "period", "up", "down",
        ],
        item,
    )?;
    Ok(station_with(name, desk, timetable, breakdowns))
}

/// The station with this item, which may have none of the names in the directory and is taken in there.
#[tactic(auto, unfolding(crate::specs::StationTexts::station))]
fn station<'a>(
    alloc: Global,
    value: &'a Value,
    directory: &mut Directory<'a>,
    item: u32,
) -> Result<Station, Refusal>
    requires { 1 ≤ item }
    ensures read { Gives (λ station. (station, finder directory.new)) result (station item (finder directory.old) (view value.now)) }
    ensures in_range { IfOk result IsStationText }
    ensures links { LinksBelow (item - 1) (finder directory.old) → IfOk result (λ _. LinksBelow item (finder directory.new)) }
{
    let table = table_of(value, item)?;
    let place = Place {
        number: item - 1,
        takes_links: true,
    };
    let name = required_name(table, directory, place, item)?;
    station_named(alloc, table, name, item)
}

/// The stations one after another, the first with item 1, and a directory of them.
pub(crate) fn stations<'a>(
    alloc: Global,
    values: &'a [Value],
) -> Result<(Vec<Station>, Directory<'a>), Refusal>
    requires { length values.now ≤ MOST_OBJECTS }
    ensures read { Gives (λ read. (read.0.items, finder read.1)) result (stations (items_view values.now)) }
    ensures count { IfOk result (λ read. length read.0.items ≡ length values.now) }
    ensures in_range { IfOk result (λ read. All IsStationText read.0.items) }
    ensures links { IfOk result (λ read. LinksBelow (length values.now) (finder read.1)) }
{
    let mut stations = Vec::new(alloc);
    let mut directory = Directory::new(alloc);
    for value in values {
        let item = stations.len() as u32 + 1;
        stations.push(station(alloc, value, &mut directory, item)?)?;
    }
    Ok((stations, directory))
}
