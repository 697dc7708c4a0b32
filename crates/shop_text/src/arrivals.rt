//! When the jobs of a class arrive.
ghost use Rattle.std.specs.Prelude.{◌≡◌, ◌≤◌, ◌+◌, All, IfOk, length};
ghost use Rattle.toml.specs.View.{table_view};
ghost use Rattle.shop_model.specs.declared.class.TheConstants.{MOST_DUE, MOST_TIMES};
ghost use Rattle.text_fields.specs.Checks.{Gives};
ghost use Rattle.shop_text.specs.ClassTexts.{window, times, batches, arrivals};
ghost use Rattle.shop_text.specs.Ranges.{AreArrivals, AreBatches, IsWindow};

use crate::laws::optional_law;
use event_key::LAST_TICK;
use random_streams::{DelayLaw, Values};
use shop_model::{MOST_COUNT, MOST_TIMES};
use std::alloc::Global;
use text_fields::{Refusal, number_or, numbers_of, optional_array};
use toml::Table;

/// From when to when jobs arrive.
#[derive(Clone, Copy)]
pub(crate) struct Window {
    pub(crate) first: u64,
    pub(crate) until: u64,
}

/// How many jobs arrive at a time, and how many in all.
#[derive(Drop)]
pub(crate) struct Batches {
    pub(crate) batch: Option<DelayLaw>,
    pub(crate) count: u32,
}

/// When the jobs of a class arrive, and how many.
#[derive(Drop)]
pub(crate) struct Arrivals {
    pub(crate) every: Option<DelayLaw>,
    pub(crate) window: Window,
    pub(crate) times: Values,
    pub(crate) batches: Batches,
}

/// From when to when the jobs of a class arrive.
#[tactic(auto, unfolding(crate::specs::ClassTexts::window))]
fn read_window(table: &Table, item: u32) -> Result<Window, Refusal>
    ensures read { Gives (λ window. window) result (window item (table_view table.now)) }
    ensures in_range { IfOk result IsWindow }
{
    let first = number_or(table, "first", item, 0, 0, LAST_TICK)?;
    let until = number_or(table, "until", item, LAST_TICK, 0, LAST_TICK)?;
    Ok(Window { first, until })
}

/// The ticks of further arrivals, where the classes before name so many.
#[tactic(auto, unfolding(crate::specs::ClassTexts::times))]
fn times(alloc: Global, table: &Table, before: usize, item: u32) -> Result<Values, Refusal>
    requires { before ≤ MOST_TIMES }
    ensures read { Gives (λ times. times) result (times item before (table_view table.now)) }
    ensures few { IfOk result (λ times. before + length times ≤ MOST_TIMES) }
    ensures in_time { IfOk result (λ times. All (λ time. time ≤ MOST_DUE) times) }
{
    let values = optional_array(table, "times", item, MOST_TIMES - before)?;
    Ok(Values::new(numbers_of(alloc, values, item, LAST_TICK)?))
}

/// How many jobs of a class arrive at a time, and how many in all.
#[tactic(auto, unfolding(crate::specs::ClassTexts::batches))]
fn read_batches(alloc: Global, table: &Table, item: u32) -> Result<Batches, Refusal>
    ensures read { Gives (λ batches. batches) result (batches item (table_view table.now)) }
    ensures in_range { IfOk result AreBatches }
{
    let batch = optional_law(alloc, table, "batch", item)?;
    let most = u64::from(MOST_COUNT);
    let count = number_or(table, "count", item, most, 1, most)? as u32;
    Ok(Batches { batch, count })
}

/// The arrivals of a class, where the classes before name so many ticks.
#[tactic(auto, unfolding(crate::specs::ClassTexts::arrivals))]
pub(crate) fn read_arrivals(
    alloc: Global,
    table: &Table,
    before: usize,
    item: u32,
) -> Result<Arrivals, Refusal>
    requires { before ≤ MOST_TIMES }
    ensures read { Gives (λ arrivals. arrivals) result (arrivals item before (table_view table.now)) }
    ensures few { IfOk result (λ arrivals. before + length arrivals.times ≤ MOST_TIMES) }
    ensures in_range { IfOk result AreArrivals }
{
    let every = optional_law(alloc, table, "every", item)?;
    let window = read_window(table, item)?;
    let times = times(alloc, table, before, item)?;
    let batches = read_batches(alloc, table, item)?;
    Ok(Arrivals {
        every,
        window,
        times,
        batches,
    })
}
