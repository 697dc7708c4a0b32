//! The model of a queueing network.
ghost use Rattle.std.specs.Prelude.{◌≡◌, ◌<◌, ◌≤◌, ◌^◌, IfOk, IsTrue, length};
ghost use Rattle.model_core.specs.declared.limits.TheConstants.{MOST_OBJECTS};
ghost use Rattle.queue_models.specs.Objects.{object_at, network_of, source_numbers};
ghost use Rattle.queue_models.specs.Parts.{IsNetwork};
ghost use Rattle.queue_models.specs.PartsProps.{IsNetwork-prop};
ghost use Rattle.queue_models.specs.Meaning.{network_meaning};

use crate::kind::Item;
use crate::site::{ARRIVE, MAKE, ObjectEvent, Site};
use model_core::model::Model as SimulationModel;
use model_core::{
    Cells, Digits, Effect, Ending, Entry, Event, OutOfMemory, Start, fault_word, record_word,
    write_record_word,
};
use random_streams::Stream;
use std::alloc::Global;

/// Objects through which jobs go.
#[derive(Drop)]
pub struct Network {
    seed: u64,
    objects: Vec<Item>,
    sources: Vec<u32>,
    jobs: Vec<Entry>,
    ghost in_range: { IsNetwork (network_of seed objects.items jobs.items) } by { IsNetwork-prop (network_of seed objects.items jobs.items) },
    ghost listed: { sources.items ≡ source_numbers objects.items },
}

/// The numbers of the sources among the objects.
fn source_numbers(alloc: Global, objects: &[Item]) -> Result<Vec<u32>, OutOfMemory>
    requires { length objects.now ≤ MOST_OBJECTS }
    ensures { IfOk result (λ numbers. numbers.items ≡ source_numbers objects.now) }
{
    let mut numbers = Vec::new(alloc);
    for (number, object) in objects.iter().enumerate() {
        if object.kind.is_source() {
            numbers.push(number as u32)?;
        }
    }
    Ok(numbers)
}

impl Network {
    ghost use Rattle.queue_models.specs.Views.{parts_of};

    /// The network with these parts: a seed, below 2^63; the objects, at most 65,536, whose names differ, and each of
    /// which has numbers within the bounds of its kind and names objects that there are and that are no sources; and the
    /// jobs with which it begins beside those of its sources, at most 65,536, each at an object that is no source.
    pub fn make(
        alloc: Global,
        seed: u64,
        objects: Vec<Item>,
        jobs: Vec<Entry>,
    ) -> Result<Network, OutOfMemory>
        requires { IsNetwork (network_of seed objects.items jobs.items) }
        ensures meaning { IfOk result (λ network. ⟦<Network as SimulationModel>⟧.meaning network
            ≡ network_meaning (network_of seed objects.items jobs.items)) }
        ensures parts { IfOk result (λ network. parts_of network ≡ network_of seed objects.items jobs.items) }
    {
        let sources = source_numbers(alloc, &objects)?;
        Ok(Network {
            seed,
            objects,
            sources,
            jobs,
        })
    }
}

impl Network {
    ghost use Rattle.event_key.specs.Stamps.{time_part};
    ghost use Rattle.model_core.specs.Effects.{outcome_by};
    ghost use Rattle.queue_models.specs.Meaning.{source_start, job_start, site_of};
    ghost use Rattle.queue_models.specs.Objects.{network_under};
    ghost use Rattle.queue_models.specs.Views.{parts_of};

    /// The object with this number.
    fn item(&self, object: u32) -> &Item
        requires { object < length self.now.objects.items }
        ensures { result.now ≡ object_at self.now.objects.items object }
    {
        &self.objects[object as usize]
    }

    /// Where an event at an object happens, under a seed.
    fn site(&self, seed: u64, object: u32) -> Site
        requires { object < length self.now.objects.items }
        ensures { result ≡ site_of (network_under seed (parts_of self.now)) object }
    {
        let rank = self.objects[object as usize].rank;
        Site { seed, object, rank }
    }

    /// What an event does under a seed, below 2^63, in place of the network's own, as `respond` says it.
    #[tactic(auto, unfolding(crate::specs::Meaning::network_meaning))]
    pub fn respond_under(
        &self,
        seed: u64,
        words: &mut Stream,
        object: u32,
        cells: &Cells,
        event: &Event,
        sheet: &mut Effect,
    ) -> Result<Ending, OutOfMemory>
        requires seed { seed < 2 ^ 63 }
        requires object { object < (network_meaning (parts_of self.now)).objects }
        requires lawful { IsTrue ((network_meaning (parts_of self.now)).lawful object cells.now.contents) }
        requires time { time_part event.now.key.stamp < 2 ^ 46 }
        ensures { IfOk result (λ ending. outcome_by ending sheet.new
            ≡ (network_meaning (network_under seed (parts_of self.now))).effect object cells.now.contents event.now) }
    {
        let site = self.site(seed, object);
        let item = self.item(object);
        sheet.clear();
        let at = ObjectEvent { site, cells, event };
        match item.kind.react(words, &at, sheet) {
            Ending::Goes => {
                item.tell(cells, sheet);
                Ok(Ending::Goes)
            }
            Ending::Fails(code) => Ok(Ending::Fails(code)),
        }
    }

    /// The event at which a source makes its first job.
    fn source_start(&self, number: u32) -> Start
        requires { number < length self.now.objects.items }
        ensures { result ≡ source_start (parts_of self.now) number }
    {
        let object = &self.objects[number as usize];
        Start {
            time: object.kind.first_time(),
            dest: number,
            kind: MAKE,
            a: 0,
            b: 0,
            rank: object.rank,
        }
    }

    /// The event at which a job arrives. Jobs are numbered from 1 on.
    fn job_start(&self, i: u32) -> Start
        requires { i < length self.now.jobs.items }
        ensures { result ≡ job_start (parts_of self.now) i }
    {
        let job = self.jobs[i as usize];
        Start {
            time: job.time,
            dest: job.at,
            kind: ARRIVE,
            a: u64::from(i) + 1,
            b: job.time,
            rank: job.rank,
        }
    }
}

#[tactic(auto, unfolding(crate::specs::Meaning::network_meaning))]
impl SimulationModel for Network {
    ghost use Rattle.queue_models.specs.Meaning.{network_meaning};
    ghost use Rattle.queue_models.specs.Views.{parts_of};
    ghost use Rattle.queue_models.specs.ModelLaws.{network_laws};

    ghost meaning = { λ network. network_meaning (parts_of network) };

    ghost laws = { λ network. network_laws (parts_of network) network.in_range };

    fn objects(&self) -> u32 {
        self.objects.len() as u32
    }

    fn starts(&self) -> u32 {
        (self.sources.len() + self.jobs.len()) as u32
    }

    fn start(&self, i: u32) -> Start {
        let from = self.sources.len() as u32;
        if i < from {
            let number = self.sources[i as usize];
            return self.source_start(number);
        }
        self.job_start(i - from)
    }

    fn first_cells(&self, alloc: Global, object: u32) -> Result<Cells, OutOfMemory> {
        self.item(object).kind.first_cells(alloc)
    }

    fn is_lawful(&self, object: u32, cells: &Cells) -> bool {
        self.item(object).kind.is_lawful(cells)
    }

    fn respond(
        &self,
        words: &mut Stream,
        object: u32,
        cells: &Cells,
        event: &Event,
        sheet: &mut Effect,
    ) -> Result<Ending, OutOfMemory> {
        self.respond_under(self.seed, words, object, cells, event, sheet)
    }

    fn put_name(&self, _alloc: Global, object: u32, into: &mut Vec<u8>) -> Result<(), OutOfMemory> {
        let name = &self.objects[object as usize].name;
        into.extend_from_slice(name.bytes())?;
        Ok(())
    }

    #[inline(always)]
    fn write_name(
        &self,
        _digits: &Digits,
        object: u32,
        into: &mut [u8],
        at: usize,
    ) -> Option<usize> {
        self.objects[object as usize].name.write(into, at)
    }

    fn word(&self, number: u32) -> Option<&'static str> {
        record_word(number)
    }

    fn fault(&self, code: u32) -> Option<&'static str> {
        fault_word(code)
    }

    #[inline(always)]
    fn write_word(&self, number: u32, into: &mut [u8], at: usize) -> Option<usize> {
        write_record_word(number, into, at)
    }
}
