//! The model of a shop.
ghost use Rattle.std.specs.Prelude.{◌≡◌, ◌<◌, ◌≤◌, ◌^◌, IfOk, IsTrue, length};
ghost use Rattle.shop_model.specs.HasStation.{HasLevels, HasStation, IsStation};
ghost use Rattle.shop_model.specs.ShopParts.{shop_of, station_at, most_open, levels_of, IsShop};
ghost use Rattle.shop_model.specs.ShopPartsProps.{IsShop-prop};
ghost use Rattle.shop_model.specs.Starts.{starts_of};
ghost use Rattle.shop_model.specs.Meaning.{shop_meaning};

use crate::class::Class;
use crate::class_event::ClassEvent;
use crate::routes::Routes;
use crate::site::Site;
use crate::standing::first_class_cells;
use crate::starts::starts_of;
use crate::station::Station;
use crate::station_event::StationEvent;
use event_key::time_of;
use model_core::model::Model as SimulationModel;
use model_core::{
    Cells, Digits, Effect, Ending, Event, Name, OutOfMemory, Sequence, Start, record_word,
    write_record_word,
};
use random_streams::Stream;
use std::alloc::Global;

/// Stations, and classes of jobs that go by their routes from station to station.
#[derive(Drop)]
pub struct Shop {
    seed: u64,
    counted_from: u64,
    stations: Vec<Station>,
    routes: Routes,
    starts: Vec<Start>,
    ghost numbered: { routes.stations ≡ length stations.items },
    ghost in_range: { IsShop (shop_of seed stations.items routes.classes) } by { IsShop-prop (shop_of seed stations.items routes.classes) },
    ghost listed: { starts.items ≡ starts_of stations.items routes.classes },
}

impl Shop {
    ghost use Rattle.shop_model.specs.Views.{parts_of, counted_from};

    /// The shop with these parts: a seed, below 2^63, the stations and the classes, which are objects in this order. Its
    /// totals count from the start on.
    pub fn make(
        alloc: Global,
        seed: u64,
        stations: Vec<Station>,
        classes: Vec<Class>,
    ) -> Result<Shop, OutOfMemory>
        requires { IsShop (shop_of seed stations.items classes.items) }
        ensures meaning { IfOk result (λ shop. ⟦<Shop as SimulationModel>⟧.meaning shop
            ≡ shop_meaning (shop_of seed stations.items classes.items)) }
        ensures parts { IfOk result (λ shop. parts_of shop ≡ shop_of seed stations.items classes.items) }
        ensures counted_from { IfOk result (λ shop. counted_from shop ≡ 0) }
    {
        let starts = starts_of(alloc, &stations, &classes)?;
        let routes = Routes {
            stations: stations.len() as u32,
            classes: Sequence::new(classes),
        };
        Ok(Shop {
            seed,
            counted_from: 0,
            stations,
            routes,
            starts,
        })
    }

    /// The same shop, whose totals count from a tick on.
    pub fn counting_from(mut self, tick: u64) -> Shop
        ensures parts { parts_of result ≡ parts_of self }
        ensures counted_from { counted_from result ≡ tick }
    {
        self.counted_from = tick;
        self
    }

    /// The seed that its draws are drawn by.
    pub fn seed(&self) -> u64
        ensures seed { result ≡ (parts_of self.now).seed }
        ensures below { result < 2 ^ 63 }
    {
        self.seed
    }

    /// The tick from which on its totals count.
    pub fn counted_from(&self) -> u64
        ensures { result ≡ counted_from self.now }
    {
        self.counted_from
    }

    /// The stations, in the order of their numbers.
    pub fn stations(&self) -> &[Station]
        ensures { result.now ≡ (parts_of self.now).stations }
    {
        self.stations.as_slice()
    }

    /// The classes of jobs, in the order of their numbers.
    pub fn classes(&self) -> &[Class]
        ensures { result.now ≡ (parts_of self.now).classes }
    {
        self.routes.classes.as_slice()
    }
}

impl Shop {
    ghost use Rattle.event_key.specs.Stamps.{time_part};
    ghost use Rattle.model_core.specs.Effects.{outcome_by};
    ghost use Rattle.shop_model.specs.Meaning.{class_of_object, name_at};
    ghost use Rattle.shop_model.specs.ShopParts.{shop_under};
    ghost use Rattle.shop_model.specs.Views.{parts_of};

    /// The station that an object is.
    fn station(&self, object: u32) -> &Station
        requires { object < length self.now.stations.items }
        ensures { result.now ≡ station_at self.now.stations.items object }
    {
        &self.stations[object as usize]
    }

    /// The class that an object is.
    #[tactic(auto, unfolding(crate::specs::Meaning::shop_meaning))]
    fn class(&self, object: u32) -> &Class
        requires object { object < (shop_meaning (parts_of self.now)).objects }
        requires no_station { length self.now.stations.items ≤ object }
        ensures { result.now ≡ class_of_object (parts_of self.now) object }
    {
        self.routes.class(object - self.routes.stations)
    }

    /// The name of an object.
    #[tactic(auto, unfolding(crate::specs::Meaning::shop_meaning, crate::specs::Meaning::name_at))]
    fn name(&self, object: u32) -> &Name
        requires { object < (shop_meaning (parts_of self.now)).objects }
        ensures { result.now ≡ name_at (parts_of self.now) object }
    {
        if object < self.routes.stations {
            return &self.station(object).name;
        }
        &self.class(object).name
    }

    /// What an event does under a seed, below 2^63, in place of the shop's own, as `respond` says it.
    pub fn respond_under(
        &self,
        seed: u64,
        words: &mut Stream,
        object: u32,
        cells: &Cells,
        event: &Event,
        sheet: &mut Effect,
    ) -> Result<Ending, OutOfMemory>
        requires object { object < (shop_meaning (parts_of self.now)).objects }
        requires lawful { IsTrue ((shop_meaning (parts_of self.now)).lawful object cells.now.contents) }
        requires time { time_part event.now.key.stamp < 2 ^ 46 }
        ensures { IfOk result (λ ending. outcome_by ending sheet.new
            ≡ (shop_meaning (shop_under seed (parts_of self.now))).effect object cells.now.contents event.now) }
    {
        sheet.clear();
        let site = Site {
            seed,
            object,
            tick: time_of(event.key.stamp),
        };
        if object < self.routes.stations {
            let at = StationEvent {
                station: self.station(object),
                site,
                routes: &self.routes,
                cells,
                event,
            };
            at.react(words, sheet);
        } else {
            let at = ClassEvent {
                class: self.class(object),
                site,
                routes: &self.routes,
                cells,
                event,
            };
            at.react(words, sheet);
        }
        Ok(Ending::Goes)
    }
}

#[tactic(auto, unfolding(crate::specs::Meaning::shop_meaning))]
impl SimulationModel for Shop {
    ghost use Rattle.shop_model.specs.Meaning.{shop_meaning};
    ghost use Rattle.shop_model.specs.ModelLaws.{shop_laws};
    ghost use Rattle.shop_model.specs.Views.{parts_of};

    ghost meaning = { λ shop. shop_meaning (parts_of shop) };

    ghost laws = { λ shop. shop_laws (parts_of shop) shop.in_range };

    fn objects(&self) -> u32 {
        self.routes.stations + self.routes.classes.as_slice().len() as u32
    }

    fn starts(&self) -> u32 {
        self.starts.len() as u32
    }

    fn start(&self, i: u32) -> Start {
        self.starts[i as usize]
    }

    #[tactic(auto, unfolding(crate::specs::Meaning::shop_meaning, crate::specs::Meaning::first_at))]
    fn first_cells(&self, alloc: Global, object: u32) -> Result<Cells, OutOfMemory> {
        if object < self.routes.stations {
            self.station(object).first_cells(alloc)
        } else {
            first_class_cells(alloc)
        }
    }

    #[tactic(auto, unfolding(crate::specs::Meaning::shop_meaning, crate::specs::Meaning::lawful_at))]
    fn is_lawful(&self, object: u32, cells: &Cells) -> bool {
        if object < self.routes.stations {
            self.station(object).is_lawful(object, &self.routes, cells)
        } else {
            self.class(object).is_lawful(cells)
        }
    }

    fn respond(
        &self,
        words: &mut Stream,
        object: u32,
        cells: &Cells,
        event: &Event,
        sheet: &mut Effect,
    ) -> Result<Ending, OutOfMemory> {
        self.respond_under(self.seed, words, object, cells, event, sheet)
    }

    fn put_name(&self, _alloc: Global, object: u32, into: &mut Vec<u8>) -> Result<(), OutOfMemory> {
        into.extend_from_slice(self.name(object).bytes())?;
        Ok(())
    }

    #[inline(always)]
    fn write_name(
        &self,
        _digits: &Digits,
        object: u32,
        into: &mut [u8],
        at: usize,
    ) -> Option<usize> {
        self.name(object).write(into, at)
    }

    fn word(&self, number: u32) -> Option<&'static str> {
        record_word(number)
    }

    /// No event of a shop fails.
    fn fault(&self, _code: u32) -> Option<&'static str> {
        None
    }

    #[inline(always)]
    fn write_word(&self, number: u32, into: &mut [u8], at: usize) -> Option<usize> {
        write_record_word(number, into, at)
    }
}
