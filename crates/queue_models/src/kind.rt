//! The objects of which a network is made, and what each does by its kind.
ghost use Rattle.std.specs.Prelude.{◌≡◌, IfOk, IsTrue};
ghost use Rattle.model_core.specs.Effects.{blank, outcome_by};
ghost use Rattle.queue_models.specs.Kinds.{KindCanDraw, is_source, is_station, first_time_of, is_lawful, effect_at, first_cells_of};

use crate::delay::Delay;
use crate::router::Router;
use crate::sink::Sink;
use crate::site::{self, ObjectEvent};
use crate::source::Source;
use crate::station::Station;
use model_core::{Cells, Effect, Ending, Name, OutOfMemory};
use random_streams::Stream;
use std::alloc::Global;

/// What an object does with the jobs that come to it, over what stands for the objects to which it sends: their numbers
/// in a network, and their names in a text. An object to which others send is never a source.
#[derive(Drop)]
pub enum KindOver<L> {
    Source(Source<L>),
    Station(Station<L>),
    Delay(Delay<L>),
    Router(Router<L>),
    Sink(Sink),
}

/// What an object of a network does.
pub type Kind = KindOver<u32>;

/// An object: its name, of 1 to 16 bytes, each an ASCII letter, a digit, `_` or `-`; what it does; the rank of all that
/// it sends, at most `MOST_RANK`; whether it is quiet, so that nothing is told of its events; and whether it is traced,
/// so that each event at it tells besides how many servers are busy and how many jobs wait. Only a station is traced.
#[derive(Drop)]
pub struct ItemOver<L> {
    pub name: Name,
    pub kind: KindOver<L>,
    pub rank: u32,
    pub quiet: bool,
    pub trace: bool,
}

/// An object of a network.
pub type Item = ItemOver<u32>;

impl<L> KindOver<L> {
    /// Whether it makes jobs, so that none may be sent to it.
    pub fn is_source(&self) -> bool
        ensures { result ≡ is_source self.now }
    {
        matches!(self, KindOver::Source(_))
    }

    /// Whether it serves jobs, so that it can be traced.
    pub fn is_station(&self) -> bool
        ensures { result ≡ is_station self.now }
    {
        matches!(self, KindOver::Station(_))
    }
}

impl Kind {
    /// When a source makes its first job, and 0 for any other kind.
    pub(crate) fn first_time(&self) -> u64
        ensures { result ≡ first_time_of self.now }
    {
        match self {
            Kind::Source(source) => source.first,
            _ => 0,
        }
    }

    /// The cells at the start. Most kinds keep their random place alone.
    pub(crate) fn first_cells(&self, alloc: Global) -> Result<Cells, OutOfMemory>
        ensures { IfOk result (λ cells. cells.contents ≡ first_cells_of self.now) }
    {
        match self {
            Kind::Source(source) => source.first_cells(alloc),
            Kind::Station(station) => station.first_cells(alloc),
            _ => site::first_cells(alloc),
        }
    }

    /// Whether an object of this kind may have these cells.
    pub(crate) fn is_lawful(&self, cells: &Cells) -> bool
        ensures { result ≡ is_lawful self.now cells.now.contents }
    {
        match self {
            Kind::Source(source) => source.is_lawful(cells),
            Kind::Station(station) => station.is_lawful(cells),
            _ => site::is_lawful(cells),
        }
    }

    /// What an event does, written into a blank sheet.
    pub(crate) fn react(&self, words: &mut Stream, at: &ObjectEvent, sheet: &mut Effect) -> Ending
        requires draws { KindCanDraw self.now }
        requires lawful { IsTrue (is_lawful self.now at.now.cells.now.contents) }
        requires blank { sheet.old ≡ blank }
        ensures { outcome_by result sheet.new ≡ effect_at at.now.site self.now at.now.cells.now.contents at.now.event.now }
    {
        match self {
            Kind::Source(source) => source.react(words, at, sheet),
            Kind::Station(station) => station.react(words, at, sheet),
            Kind::Delay(delay) => delay.react(words, at, sheet),
            Kind::Router(router) => router.react(words, at, sheet),
            Kind::Sink(sink) => sink.react(at.event, sheet),
        }
    }
}
