//! The totals of a station: its sums, and those of each class that visits it.
ghost use Rattle.std.specs.Prelude.{◌≡◌, ◌<◌, ◌≤◌, ◌+◌, ◌^◌, ◌++◌, ◌∷◌, [], ℕ, List, All, IfOk, OnOk, get_or, length, map};
ghost use Rattle.std.specs.List.{AllPairs};
ghost use Rattle.shop_model.specs.Views.{parts_of};
ghost use Rattle.shop_totals.specs.Records.{parts_at};
ghost use Rattle.shop_totals.specs.ShopLines.{station_lines, visit_line};
ghost use Rattle.shop_totals.specs.Summed.{SumsUpStation, SumsUpShopStation, visit_of};
ghost use Rattle.shop_totals.specs.Sums.{IsVisitWithin};
ghost use Rattle.shop_totals.specs.Told.{TimedPart};
ghost use Rattle.shop_totals.specs.Visits.{classes_at};

use crate::form::LineForm;
use crate::line::Line;
use crate::listing::Listing;
use crate::station_sums::StationSums;
use crate::visit_sums::VisitSums;
use model_core::model::Model;
use model_core::{OutOfMemory, Part};
use shop_model::{JOBS_A_CLASS, Shop};
use std::alloc::Global;

/// The sums of a station, and those of each class that visits it, in the order of the classes.
#[derive(Drop)]
pub struct StationTotals {
    pub sums: StationSums,
    // the numbers of the classes, which rise, and for each of them its sums
    classes: Vec<u64>,
    visits: Vec<VisitSums>,
}

/// A class that visits a station: the station, and the place of the class among those that visit it.
#[derive(Clone, Copy)]
struct Visit {
    station: u32,
    place: usize,
}

/// A part is told that counts, at a station that these classes visit, whose sums these are.
fn count_visit(classes: &[u64], visits: &mut Vec<VisitSums>, part: Part)
    requires long { length visits.old.items ≡ length classes.now }
    requires rising { AllPairs (λ (a b : ℕ). a < b) classes.now }
    requires room { All (IsVisitWithin (2 ^ 62)) visits.old.items }
    ensures within { (parts : ℕ) → All (IsVisitWithin parts) visits.old.items → All (IsVisitWithin (parts + 1)) visits.new.items }
    ensures sums { (first time : ℕ) (told : List TimedPart) → first ≤ time → visits.old.items ≡ map (visit_of first told) classes.now
        → visits.new.items ≡ map (visit_of first (told ++ record { time = time; part = part } ∷ [])) classes.now }
{
    if let Ok(place) = classes.binary_search(&(part.a / JOBS_A_CLASS)) {
        let visit = &mut visits[place];
        *visit = visit.and(part);
    }
}

impl StationTotals {
    /// Nothing was told yet of a station with so many servers open, which these classes visit, in rising order. What
    /// counts is told from a tick on.
    pub fn new(
        alloc: Global,
        first: u64,
        servers: u64,
        classes: Vec<u64>,
    ) -> Result<StationTotals, OutOfMemory>
        requires { AllPairs (λ (a b : ℕ). a < b) classes.items }
        ensures sums { IfOk result (SumsUpStation first servers classes.items [] 0) }
        ensures clock { IfOk result (λ totals. totals.sums.clock ≡ 0) }
    {
        let visits = vec![in alloc; VisitSums::new(); classes.len()]?;
        Ok(StationTotals {
            sums: StationSums::new(first, servers),
            classes,
            visits,
        })
    }

    /// A part is told, now.
    fn add_part(&mut self, part: Part)
        requires { (first servers : ℕ) × (classes : List ℕ) × (told : List TimedPart) × SumsUpStation first servers classes told (2 ^ 62) self.old }
        ensures sums { (first servers time : ℕ) (classes : List ℕ) (told : List TimedPart) (parts : ℕ) → self.old.sums.clock ≡ time
            → SumsUpStation first servers classes told parts self.old
            → SumsUpStation first servers classes (told ++ record { time = time; part = part } ∷ []) (parts + 1) self.new }
        ensures clock { self.new.sums.clock ≡ self.old.sums.clock }
    {
        self.sums = self.sums.and(part);
        if self.sums.first <= self.sums.clock {
            count_visit(&self.classes, &mut self.visits, part);
        }
    }

    /// Parts are told, at a time. It takes no memory, and for each part time that is logarithmic in how many classes visit.
    pub fn add(&mut self, time: u64, parts: &[Part])
        requires time { self.old.sums.clock ≤ time }
        requires soon { time < 2 ^ 48 }
        requires few { length parts.now ≤ 4 }
        requires room { (first servers : ℕ) × (classes : List ℕ) × (told : List TimedPart) × SumsUpStation first servers classes told (2 ^ 61) self.old }
        ensures sums { (first servers : ℕ) (classes : List ℕ) (told : List TimedPart) (most : ℕ) → SumsUpStation first servers classes told most self.old
            → SumsUpStation first servers classes (told ++ parts_at time parts.now) (most + 4) self.new }
        ensures clock { self.new.sums.clock ≡ time }
    {
        self.sums = self.sums.pass(time);
        for part in parts {
            self.add_part(*part);
        }
    }

    /// Appends the line of a class. Where memory runs out, it may have appended some of it.
    fn put_visit<F: LineForm>(
        &self,
        listing: &Listing<F>,
        visit: Visit,
        into: &mut Vec<u8>,
    ) -> Result<(), OutOfMemory>
        requires station { visit.station < length (parts_of listing.now.shop.now).stations }
        requires place { visit.place < length (classes_at (parts_of listing.now.shop.now) visit.station) }
        requires sums { (first : ℕ) × (told : List TimedPart)
            × SumsUpShopStation (parts_of listing.now.shop.now) first visit.station told (2 ^ 62) self.now }
        ensures { OnOk result ((first parts : ℕ) (told : List TimedPart)
            → SumsUpShopStation (parts_of listing.now.shop.now) first visit.station told parts self.now
            → into.new.items ≡ into.old.items ++ visit_line (F.form listing.now.form.now) (parts_of listing.now.shop.now) first told visit.station
            (get_or (classes_at (parts_of listing.now.shop.now) visit.station) visit.place 0)) }
    {
        let first = listing.shop.stations().len() as u32;
        let class = self.classes[visit.place] as u32;
        listing.put_named(visit.station, into)?;
        into.push(b'/')?;
        listing.shop.put_name(listing.alloc, first + class, into)?;
        let line = Line::Visit(self.visits[visit.place]);
        listing.form.put_line(listing.alloc, &line, into)?;
        Ok(())
    }

    /// Appends the lines of the station, with what comes before the clock. Where memory runs out, it may have appended
    /// some of them.
    pub fn put<F: LineForm>(
        &self,
        listing: &Listing<F>,
        station: u32,
        into: &mut Vec<u8>,
    ) -> Result<(), OutOfMemory>
        requires station { station < length (parts_of listing.now.shop.now).stations }
        requires clock { self.now.sums.clock ≤ listing.now.clock }
        requires sums { (first : ℕ) × (told : List TimedPart)
            × SumsUpShopStation (parts_of listing.now.shop.now) first station told (2 ^ 62) self.now }
        ensures { OnOk result ((first parts : ℕ) (told : List TimedPart)
            → SumsUpShopStation (parts_of listing.now.shop.now) first station told parts self.now
            → into.new.items ≡ into.old.items
            ++ station_lines (F.form listing.now.form.now) (parts_of listing.now.shop.now) first listing.now.clock told station) }
    {
        let line = Line::Station(self.sums.pass(listing.clock));
        listing.put_line(station, &line, into)?;
        for place in 0..self.classes.len() {
            self.put_visit(listing, Visit { station, place }, into)?;
        }
        Ok(())
    }
}
