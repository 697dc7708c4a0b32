//! The body of a text: its stations and its classes.
ghost use Rattle.std.specs.Prelude.{◌≡◌, ◌+◌, ◌<◌, ◌≤◌, ◌^◌, List, All, IfOk, length, map, sum_by};
ghost use Rattle.toml.specs.View.{table_view};
ghost use Rattle.shop_model.specs.declared.class.TheConstants.{MOST_PRIORITY, MOST_TIMES};
ghost use Rattle.shop_model.specs.ShopParts.{calmest, levels_of};
ghost use Rattle.shop_model.specs.Views.{parts_of};
ghost use Rattle.model_core.specs.declared.limits.TheConstants.{MOST_OBJECTS};
ghost use Rattle.text_fields.specs.Checks.{Gives};
ghost use Rattle.text_fields.specs.Directories.{finder};
ghost use Rattle.shop_text.specs.Ranges.{IsClassText, IsStationText, LinksBelow};
ghost use Rattle.shop_text.specs.ShopTexts.{with_levels, linked_shop, body};
ghost use Rattle.shop_text.specs.Views.{class_text, class_texts};

use crate::classes::classes;
use crate::links::linked_classes;
use crate::named::NamedClass;
use crate::stations::stations;
use model_core::MOST_OBJECTS;
use shop_model::{Class, Order, Shop, Station};
use std::alloc::{AllocError, Global};
use text_fields::{Cause, Directory, Refusal, item_count, optional_array};
use toml::Table;

/// The calmest priority of any class.
fn calmest(classes: &[Class]) -> u32
    ensures { result ≡ calmest classes.now }
{
    let mut priority = 0;
    for class in classes {
        priority = class.priority.max(priority);
    }
    priority
}

/// How many levels a line has, where this is the calmest priority of any class.
fn levels(order: Order, priority: u32) -> u32
    requires { priority ≤ MOST_PRIORITY }
    ensures { (classes : List Class) → calmest classes ≡ priority → result ≡ levels_of order classes }
{
    match order {
        Order::Priority => priority + 1,
        _ => 1,
    }
}

/// The stations, with a level of their lines for each priority where the urgent are called first.
fn with_levels(
    alloc: Global,
    stations: Vec<Station>,
    classes: &[Class],
) -> Result<Vec<Station>, AllocError>
    requires { calmest classes.now ≤ MOST_PRIORITY }
    ensures { IfOk result (λ levelled. levelled.items ≡ map (with_levels classes.now) stations.items) }
{
    let priority = calmest(classes);
    let mut levelled = Vec::with_capacity(alloc, stations.len())?;
    for station in stations {
        let levels = levels(station.order, priority);
        levelled.push(Station { levels, ..station })?;
    }
    Ok(levelled)
}

/// Pass two, over the stations and classes of pass one.
#[tactic(auto, unfolding(crate::specs::ShopTexts::linked_shop))]
fn linked_shop(
    alloc: Global,
    seed: u64,
    stations: Vec<Station>,
    named: Vec<NamedClass>,
    directory: &Directory,
) -> Result<Shop, Refusal>
    requires seed { seed < 2 ^ 63 }
    requires few { length stations.items + length named.items ≤ MOST_OBJECTS }
    requires stations { All IsStationText stations.items }
    requires classes { All (λ (class : NamedClass). IsClassText (class_text class)) named.items }
    requires few_times { sum_by (λ (class : NamedClass). length class.class.times) named.items ≤ MOST_TIMES }
    requires links { LinksBelow (length stations.items) (finder directory.now) }
    ensures { Gives parts_of result (linked_shop seed (finder directory.now) stations.items (class_texts named.entry.items)) }
{
    let first = stations.len() as u32 + 1;
    let classes = linked_classes(alloc, directory, named, first)?;
    let levelled = with_levels(alloc, stations, &classes)?;
    Ok(Shop::make(alloc, seed, levelled, classes)?)
}

/// The arrays `station` and `class`, of a shop with this seed.
#[tactic(auto, unfolding(crate::specs::ShopTexts::body))]
pub(crate) fn body(alloc: Global, table: &Table, seed: u64) -> Result<Shop, Refusal>
    requires { seed < 2 ^ 63 }
    ensures { Gives parts_of result (body seed (table_view table.now)) }
{
    let most = MOST_OBJECTS as usize;
    let tables = optional_array(table, "station", 0, most)?;
    let others = optional_array(table, "class", 0, most)?;
    if item_count(tables) + item_count(others) > most {
        return Err(Cause::Limit.at(0));
    }
    let first = item_count(tables) as u32 + 1;
    let (stations, mut directory) = stations(alloc, tables)?;
    let named = classes(alloc, others, &mut directory, first)?;
    linked_shop(alloc, seed, stations, named, &directory)
}
