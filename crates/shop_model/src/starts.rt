//! The events with which a shop begins.
ghost use Rattle.std.specs.Prelude.{◌≡◌, ◌<◌, ◌≤◌, ◌+◌, ◌++◌, ◌∷◌, [], List, IfOk, OnOk, length, map};
ghost use Rattle.shop_model.specs.declared.kinds.TheConstants.{MAKE};
ghost use Rattle.model_core.specs.declared.limits.TheConstants.{MOST_OBJECTS};
ghost use Rattle.shop_model.specs.OwnEvents.{kind_of, first_word, second_word};
ghost use Rattle.shop_model.specs.declared.class.Class.{Class};
ghost use Rattle.shop_model.specs.Starts.{start_at, first_shift, first_work, first_arrival, station_starts, class_starts, starts_below, starts_of};

use crate::class::Class;
use crate::own_event::OwnEvent;
use crate::station::Station;
use model_core::{OutOfMemory, Start};
use std::alloc::Global;

/// An event with which an object begins.
fn start_at(object: u32, time: u64, event: OwnEvent) -> Start
    ensures { result ≡ record (start_at object time (kind_of event) (second_word event)) { a = first_word event } }
{
    Start {
        time,
        dest: object,
        kind: event.kind(),
        a: event.first_word(),
        b: event.second_word(),
        rank: event.rank(),
    }
}

impl Station {
    /// Lists the events with which it begins as this object: its first shift, and that it works.
    fn add_starts(&self, object: u32, starts: &mut Vec<Start>) -> Result<(), OutOfMemory>
        ensures { OnOk result (starts.new.items ≡ starts.old.items ++ station_starts object self.now) }
    {
        if let Some(shift) = self.shifts.as_slice().first() {
            starts.push(start_at(object, shift.at, OwnEvent::Shift { number: 0 }))?;
        }
        if self.breakdowns.is_some() {
            starts.push(start_at(object, 0, OwnEvent::Mend))?;
        }
        Ok(())
    }
}

impl Class {
    /// Lists the events with which it begins as this object: its arrivals, of those that follow each other the first.
    fn add_starts(&self, object: u32, starts: &mut Vec<Start>) -> Result<(), OutOfMemory>
        ensures { OnOk result (starts.new.items ≡ starts.old.items ++ class_starts object self.now) }
    {
        self.add_first(object, starts)?;
        self.add_times(object, starts)
    }

    /// Lists the first of the arrivals that follow each other, if it comes in time.
    fn add_first(&self, object: u32, starts: &mut Vec<Start>) -> Result<(), OutOfMemory>
        ensures { OnOk result (starts.new.items ≡ starts.old.items
            ++ first_arrival object self.now.every self.now.first self.now.until) }
    {
        if self.every.is_some() && self.first <= self.until {
            starts.push(start_at(object, self.first, OwnEvent::ArriveInTurn))?;
        }
        Ok(())
    }

    /// Lists the arrivals whose ticks are named.
    fn add_times(&self, object: u32, starts: &mut Vec<Start>) -> Result<(), OutOfMemory>
        ensures { OnOk result (starts.new.items ≡ starts.old.items
            ++ map (λ time. start_at object time MAKE 0) self.now.times) }
    {
        for time in self.times.as_slice() {
            starts.push(start_at(object, *time, OwnEvent::Arrive))?;
        }
        Ok(())
    }
}

/// The events with which a shop begins, object by object.
pub(crate) fn starts_of(
    alloc: Global,
    stations: &[Station],
    classes: &[Class],
) -> Result<Vec<Start>, OutOfMemory>
    requires { length stations.now + length classes.now ≤ MOST_OBJECTS }
    ensures { IfOk result (λ starts. starts.items ≡ starts_of stations.now classes.now) }
{
    let mut starts = station_starts(alloc, stations)?;
    add_class_starts(stations, classes, &mut starts)?;
    Ok(starts)
}

/// Those with which the stations begin.
fn station_starts(alloc: Global, stations: &[Station]) -> Result<Vec<Start>, OutOfMemory>
    requires { length stations.now ≤ MOST_OBJECTS }
    ensures { IfOk result (λ starts. (classes : List Class) → starts.items ≡ starts_below stations.now classes (length stations.now)) }
{
    let mut starts = Vec::new(alloc);
    for (number, station) in stations.iter().enumerate() {
        station.add_starts(number as u32, &mut starts)?;
    }
    Ok(starts)
}

/// Lists those with which the classes begin, after those of the stations.
fn add_class_starts(
    stations: &[Station],
    classes: &[Class],
    starts: &mut Vec<Start>,
) -> Result<(), OutOfMemory>
    requires few { length stations.now + length classes.now ≤ MOST_OBJECTS }
    requires stations { starts.old.items ≡ starts_below stations.now classes.now (length stations.now) }
    ensures { OnOk result (starts.new.items ≡ starts_of stations.now classes.now) }
{
    for (place, class) in classes.iter().enumerate() {
        class.add_starts((stations.len() + place) as u32, starts)?;
    }
    Ok(())
}
