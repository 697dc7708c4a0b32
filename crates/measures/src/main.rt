//! Measures parts of the simulator: its first word says which, and the numbers after it how much is done. What it prints
//! is the same however long that takes: another program tells the time, as `time` does. It prints random words and draws too,
//! to be compared with an independent computation.
#![tactic(auto)]

mod cells;
mod draws;
mod lanes;
mod log;
mod queue;
mod stopped;

use crate::cells::sum_after;
use crate::draws::print_table;
use crate::lanes::{by_rings, by_slots};
use crate::log::run;
use crate::queue::hold;
use crate::stopped::Stopped;
use std::alloc::Global;
use std::env;
use std::io::{self, Print};

/// What is measured, and how much is done.
#[derive(Clone, Copy)]
enum Measure {
    /// Pushes on one line of an object's cells.
    Cells {
        pushes: u32,
    },
    /// Steps of a queue, each of which takes an event and puts one.
    Queue {
        pending: u32,
        steps: u32,
    },
    /// Rounds of an event at each object, with a commit after each batch of rounds.
    Log {
        objects: u32,
        rounds: u32,
        batch: u32,
    },
    /// Cycles in which each node posts to each node, by plain slots.
    Slots {
        nodes: u32,
        cycles: u32,
    },
    /// Cycles in which each node posts to each node, by rings.
    Rings {
        nodes: u32,
        cycles: u32,
    },
}

const USAGE: &str = "usage: measures cells PUSHES
       measures queue PENDING STEPS
       measures log OBJECTS ROUNDS BATCH
       measures slots NODES CYCLES
       measures rings NODES CYCLES
       measures draws
       measures small";

/// A little of each, which `small` does before it prints the table of draws.
const SMALL: [Measure; 5] = [
    Measure::Cells { pushes: 1_000 },
    Measure::Queue {
        pending: 64,
        steps: 1_000,
    },
    Measure::Log {
        objects: 4,
        rounds: 1_000,
        batch: 3,
    },
    Measure::Slots {
        nodes: 4,
        cycles: 1_000,
    },
    Measure::Rings {
        nodes: 4,
        cycles: 1_000,
    },
];

/// A number of the command line.
fn number(word: &str) -> Option<u32> {
    word.parse().ok()
}

/// What the words ask for, if it is one measurement.
fn measure_of(words: &[&str]) -> Option<Measure> {
    match words {
        ["cells", pushes] => Some(Measure::Cells {
            pushes: number(pushes)?,
        }),
        ["queue", pending, steps] => Some(Measure::Queue {
            pending: number(pending)?,
            steps: number(steps)?,
        }),
        ["log", objects, rounds, batch] => Some(Measure::Log {
            objects: number(objects)?,
            rounds: number(rounds)?,
            batch: number(batch)?,
        }),
        ["slots", nodes, cycles] => Some(Measure::Slots {
            nodes: number(nodes)?,
            cycles: number(cycles)?,
        }),
        ["rings", nodes, cycles] => Some(Measure::Rings {
            nodes: number(nodes)?,
            cycles: number(cycles)?,
        }),
        _ => None,
    }
}

/// Does what is measured, and answers what it tells.
fn done(alloc: Global, measure: Measure) -> Result<String, Stopped> {
    match measure {
        Measure::Cells { pushes } => {
            let sum = sum_after(alloc, u64::from(pushes))?;
            Ok(format!(in alloc; "cells: {pushes} pushes, sum {sum}")?)
        }
        Measure::Queue { pending, steps } => {
            let checksum = hold(alloc, pending, steps)?;
            Ok(format!(in alloc; "queue: {pending} pending, {steps} steps, checksum {checksum}")?)
        }
        Measure::Log {
            objects,
            rounds,
            batch,
        } => {
            let count = run(alloc, objects, rounds, batch)?;
            Ok(format!(in alloc;
                "log: {} events committed, {} messages",
                count.events, count.messages
            )?)
        }
        Measure::Slots { nodes, cycles } => {
            let parcels = by_slots(alloc, nodes, cycles)?;
            Ok(format!(in alloc; "slots: {nodes} nodes, {cycles} cycles, {parcels} parcels")?)
        }
        Measure::Rings { nodes, cycles } => {
            let parcels = by_rings(alloc, nodes, cycles)?;
            Ok(format!(in alloc; "rings: {nodes} nodes, {cycles} cycles, {parcels} parcels")?)
        }
    }
}

/// Does what is measured, and prints a line.
fn print_done(rt: &impl Print, alloc: Global, measure: Measure) -> io::Result<()> {
    match done(alloc, measure) {
        Ok(line) => println!(rt; "{line}"),
        Err(stopped) => println!(rt; "{stopped}"),
    }
}

fn main(rt: HostRuntime) -> io::Result<()> {
    let alloc = rt.alloc();
    let args: Vec<String> = env::args(&rt)?.skip(1).collect(alloc)?;
    let words: Vec<&str> = args.iter().map(|word| word.as_str()).collect(alloc)?;
    if let ["small"] = words.as_slice() {
        for measure in SMALL {
            print_done(&rt, alloc, measure)?;
        }
        return print_table(&rt, alloc);
    }
    if let ["draws"] = words.as_slice() {
        return print_table(&rt, alloc);
    }
    match measure_of(words.as_slice()) {
        Some(measure) => print_done(&rt, alloc, measure),
        None => println!(rt; "{USAGE}"),
    }
}
