//! A large network from a number.
ghost use Rattle.std.specs.Prelude.{◌≡◌, ◌≤◌, ◌<◌, ◌*◌, ◌/◌, IfOk};
ghost use Rattle.model_core.specs.declared.limits.TheConstants.{MOST_DEMO_STATIONS};
ghost use Rattle.queue_models.specs.Rings.{ring_station, ring_delay, ring_object, ring_objects, ring_jobs, ring_parts, ring_terms};
ghost use Rattle.queue_models.specs.Meaning.{network_meaning};

use crate::delay::Delay;
use crate::kind::{Item, Kind};
use crate::network::Network;
use crate::station::Station;
use model_core::model::Model as SimulationModel;
use model_core::{Entry, Name, OutOfMemory};
use random_streams::Law;
use sim_spec::Terms;
use std::alloc::Global;

/// The station with this number, 0 to n - 1.
#[tactic(auto, unfolding(crate::specs::Rings::ring_station))]
fn ring_station(alloc: Global, number: u32) -> Result<Item, OutOfMemory>
    requires { number < MOST_DEMO_STATIONS }
    ensures { IfOk result (λ item. item ≡ ring_station number) }
{
    let name = format!(in alloc; "q{number}")?;
    Ok(Item {
        name: Name::new(name.into_bytes()),
        kind: Kind::Station(Station {
            servers: 1,
            service: Law::Uniform {
                low: 1,
                high: 1 + u64::from(number % 7),
            },
            line: 256,
            strict: false,
            next: 2 * number + 1,
        }),
        rank: 0,
        quiet: false,
        trace: false,
    })
}

/// The delay behind the station with this number, in a ring of `n` stations.
#[tactic(auto, unfolding(crate::specs::Rings::ring_delay))]
fn ring_delay(alloc: Global, n: u32, number: u32) -> Result<Item, OutOfMemory>
    requires some { number < n }
    requires few { n ≤ MOST_DEMO_STATIONS }
    ensures { IfOk result (λ item. item ≡ ring_delay n number) }
{
    let name = format!(in alloc; "d{number}")?;
    Ok(Item {
        name: Name::new(name.into_bytes()),
        kind: Kind::Delay(Delay {
            delay: Law::Uniform {
                low: 1,
                high: 1 + u64::from(number % 11),
            },
            next: 2 * ((number + 1) % n),
        }),
        rank: 0,
        quiet: false,
        trace: false,
    })
}

/// The object with this number.
fn ring_object(alloc: Global, n: u32, number: u32) -> Result<Item, OutOfMemory>
    requires some { number < 2 * n }
    requires few { n ≤ MOST_DEMO_STATIONS }
    ensures { IfOk result (λ item. item ≡ ring_object n number) }
{
    if number % 2 == 0 {
        ring_station(alloc, number / 2)
    } else {
        ring_delay(alloc, n, number / 2)
    }
}

/// The objects of a ring of `n` stations: each station and the delay behind it, in turn.
fn ring_objects(alloc: Global, n: u32) -> Result<Vec<Item>, OutOfMemory>
    requires { n ≤ MOST_DEMO_STATIONS }
    ensures { IfOk result (λ objects. objects.items ≡ ring_objects n) }
{
    let mut objects = Vec::new(alloc);
    for number in 0..2 * n {
        objects.push(ring_object(alloc, n, number)?)?;
    }
    Ok(objects)
}

/// Its jobs: one at each station, at time 0.
fn ring_jobs(alloc: Global, n: u32) -> Result<Vec<Entry>, OutOfMemory>
    requires { n ≤ MOST_DEMO_STATIONS }
    ensures { IfOk result (λ jobs. jobs.items ≡ ring_jobs n) }
{
    let mut jobs = Vec::new(alloc);
    for number in 0..n {
        jobs.push(Entry {
            time: 0,
            at: 2 * number,
            rank: 0,
        })?;
    }
    Ok(jobs)
}

/// A ring of `n` stations, 1 to 256 of them, each with a delay behind it, round which as many jobs go for ever; and the
/// terms of its simulation, which ends with the tick 1,000.
pub fn ring(alloc: Global, n: u32) -> Result<(Network, Terms), OutOfMemory>
    requires some { 1 ≤ n }
    requires few { n ≤ MOST_DEMO_STATIONS }
    ensures network { IfOk result (λ both. ⟦<Network as SimulationModel>⟧.meaning both.0 ≡ network_meaning (ring_parts n)) }
    ensures terms { IfOk result (λ both. both.1 ≡ ring_terms) }
{
    let objects = ring_objects(alloc, n)?;
    let jobs = ring_jobs(alloc, n)?;
    let network = Network::make(alloc, u64::from(n), objects, jobs)?;
    let terms = Terms {
        end: 1000,
        limit: 10_000_000,
    };
    Ok((network, terms))
}
