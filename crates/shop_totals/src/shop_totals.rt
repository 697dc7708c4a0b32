//! The totals of a shop as a tally of its run.
ghost use Rattle.std.specs.Prelude.{◌≡◌, ◌<◌, ◌≤◌, ◌+◌, ◌*◌, ◌^◌, ◌++◌, [], ℕ, List, IfOk, OnOk, length};
ghost use Rattle.event_key.specs.declared.key.Key.{Key};
ghost use Rattle.model_core.specs.declared.note.Note.{Note};
ghost use Rattle.run_tally.specs.Tallies.{last_time};
ghost use Rattle.shop_model.specs.ShopParts.{ShopParts};
ghost use Rattle.shop_model.specs.Views.{parts_of, counted_from};
ghost use Rattle.shop_totals.specs.ShopLines.{clock_of, all_station_lines, all_class_lines, lines_by};
ghost use Rattle.shop_totals.specs.Summed.{SumsUp, SumsUpShop, AppendsSummed, IsNewStation, AreNewStations};

use crate::class_sums::ClassSums;
use crate::form::{LineForm, TotalLines};
use crate::line::Line;
use crate::listing::Listing;
use crate::station_totals::StationTotals;
use crate::visits::classes_at;
use event_key::{Key, time_of};
use model_core::model::Model;
use model_core::{OutOfMemory, Part};
use run_tally::Tally;
use shop_model::Shop;
use sim_spec::{Stop, Terms};
use std::alloc::Global;

/// The totals of each station and of each class of a shop, as sums over what is told of them.
#[derive(Drop)]
pub struct ShopTotals {
    stations: Vec<StationTotals>,
    classes: Vec<ClassSums>,
    // the time of the last record
    last: u64,
}

/// The totals of a station, of which nothing was told yet.
fn new_station(alloc: Global, shop: &Shop, station: u32) -> Result<StationTotals, OutOfMemory>
    requires { station < length (parts_of shop.now).stations }
    ensures { IfOk result (IsNewStation (parts_of shop.now) (counted_from shop.now) station) }
{
    let classes = classes_at(alloc, shop, station)?;
    let one = &shop.stations()[station as usize];
    let servers = u64::from(one.servers);
    let totals = StationTotals::new(alloc, shop.counted_from(), servers, classes)?;
    Ok(totals)
}

/// The totals of the stations of a shop, of which nothing was told yet.
fn new_stations(alloc: Global, shop: &Shop) -> Result<Vec<StationTotals>, OutOfMemory>
    ensures { IfOk result (λ all. AreNewStations (parts_of shop.now) (counted_from shop.now) (length (parts_of shop.now).stations) all.items) }
{
    let mut all = Vec::new(alloc);
    for number in 0..shop.stations().len() {
        let totals = new_station(alloc, shop, number as u32)?;
        all.push(totals)?;
    }
    Ok(all)
}

impl ShopTotals {
    /// Until when ticks count, over a run that stopped so.
    pub fn clock(&self, terms: &Terms, stop: &Stop) -> u64
        ensures { (p : ShopParts) (first : ℕ) (records : List (Key × Note)) → SumsUpShop p first self.now records → result ≡ clock_of terms.now records stop.now }
    {
        match stop {
            Stop::End => terms.end,
            Stop::Limit => self.last,
            Stop::Fault { key, .. } => time_of(key.stamp),
        }
    }

    /// Appends the lines of the stations.
    fn put_stations<F: LineForm>(
        &self,
        listing: &Listing<F>,
        into: &mut Vec<u8>,
    ) -> Result<(), OutOfMemory>
        requires clock { self.now.last ≤ listing.now.clock }
        requires sums { (records : List (Key × Note)) × SumsUp listing.now.shop.now self.now records }
        ensures { let at = listing.now in
            let text = all_station_lines (F.form at.form.now) (parts_of at.shop.now) (counted_from at.shop.now) at.clock in
            OnOk result (AppendsSummed at.shop.now self.now text into.old.items into.new.items) }
    {
        for number in 0..self.stations.len() {
            let station = &self.stations[number];
            station.put(listing, number as u32, into)?;
        }
        Ok(())
    }

    /// Appends the lines of the classes.
    fn put_classes<F: LineForm>(
        &self,
        listing: &Listing<F>,
        into: &mut Vec<u8>,
    ) -> Result<(), OutOfMemory>
        requires clock { self.now.last ≤ listing.now.clock }
        requires sums { (records : List (Key × Note)) × SumsUp listing.now.shop.now self.now records }
        ensures { let at = listing.now in
            let text = all_class_lines (F.form at.form.now) (parts_of at.shop.now) (counted_from at.shop.now) at.clock in
            OnOk result (AppendsSummed at.shop.now self.now text into.old.items into.new.items) }
    {
        for number in 0..self.classes.len() {
            let object = self.stations.len() as u32 + number as u32;
            let sums = self.classes[number].pass(listing.clock);
            listing.put_line(object, &Line::Class(sums), into)?;
        }
        Ok(())
    }

    /// Appends the lines of a shop, with what comes before the clock. Where memory runs out, it may have appended some of
    /// them.
    #[tactic(auto, unfolding(crate::specs::ShopLines::lines_by))]
    pub fn put_by<F: LineForm>(
        &self,
        listing: &Listing<F>,
        into: &mut Vec<u8>,
    ) -> Result<(), OutOfMemory>
        requires { (records : List (Key × Note)) × SumsUp listing.now.shop.now self.now records
            × (last_time 0 records ≤ listing.now.clock) }
        ensures { let at = listing.now in
            let text = lines_by (F.form at.form.now) (parts_of at.shop.now) (counted_from at.shop.now) at.clock in
            OnOk result (AppendsSummed at.shop.now self.now text into.old.items into.new.items) }
    {
        self.put_stations(listing, into)?;
        self.put_classes(listing, into)?;
        Ok(())
    }
}

impl Tally<Shop> for ShopTotals {
    ghost use Rattle.shop_model.specs.Views.{parts_of, counted_from};
    ghost use Rattle.shop_totals.specs.ShopLines.{shop_lines};
    ghost use Rattle.shop_totals.specs.Summed.{SumsUpShop};

    ghost lines = { λ shop terms. shop_lines (parts_of shop) (counted_from shop) terms };

    ghost sums_up = { λ shop totals records. SumsUpShop (parts_of shop) (counted_from shop) totals records };

    fn new(alloc: Global, model: &Shop) -> Result<ShopTotals, OutOfMemory> {
        let stations = new_stations(alloc, model)?;
        let none = ClassSums::new(model.counted_from());
        let classes = vec![in alloc; none; model.classes().len()]?;
        Ok(ShopTotals {
            stations,
            classes,
            last: 0,
        })
    }

    fn add(&mut self, _model: &Shop, key: &Key, parts: &[Part]) {
        let Key { stamp, dest, .. } = *key;
        let object = dest as usize;
        let time = time_of(stamp);
        let stations = self.stations.len();
        self.last = time;
        if object < stations {
            let totals = &mut self.stations[object];
            totals.add(time, parts);
            return;
        }
        let sums = &mut self.classes[object - stations];
        *sums = sums.and_all(time, parts);
    }

    fn put(
        &self,
        alloc: Global,
        model: &Shop,
        terms: &Terms,
        stop: &Stop,
        into: &mut Vec<u8>,
    ) -> Result<(), OutOfMemory> {
        let listing = Listing {
            alloc,
            form: &TotalLines,
            shop: model,
            clock: self.clock(terms, stop),
        };
        self.put_by(&listing, into)?;
        Ok(())
    }
}
