//! Runs each example on one thread and on nodes, and each example of a shop by the words of its program, and says whether
//! the text is the stored one, which an independent simulator wrote.
#![tactic(auto)]

ghost use Rattle.std.specs.Prelude.{◌≡◌, false, IfOk, IfSome};
ghost use Rattle.model_text.specs.Meanings.{meaning_of};
ghost use Rattle.model_text.specs.ModelTexts.{model_of};
ghost use Rattle.model_program.specs.Machines.{IsMachine};
ghost use Rattle.run_tally.specs.Tallies.{no_totals};
ghost use Rattle.sim_text.specs.WholeTexts.{text_from_start};
ghost use Rattle.sim_text.specs.declared.telling.Telling.TheVariants.{Lines};

use model_program::{DEFAULT_SPREAD, Job, Machine, Stage, run_model};
use model_text::{AnyModel, read_model};
use node_team::Open;
use run_tally::NoTally;
use shop_program::run_program;
use sim_io::{MemSink, MemSource};
use sim_spec::Terms;
use sim_text::{Telling, Unfinished};
use std::alloc::{AllocGlobal, Global};
use std::rt::Files;
use std::thread::Threads;
use std::{fs, io};
use test_texts::words_of;

/// The examples by name. Each is a model and its text in `data`, which the folder `examples` at the top stands for.
const EXAMPLES: [&str; 13] = [
    "adder",
    "bank",
    "clinic",
    "counter",
    "full-adder",
    "job-shop",
    "latch",
    "phold",
    "switch",
    "tandem",
    "traced",
    "unranked",
    "urgent",
];

/// The examples of shops: the model in `data/shops`, the words that it is run by, and the file of what it prints.
const SHOPS: [(&str, &str, &str); 7] = [
    ("call-centre", "totals", "call-centre.totals"),
    ("clinic", "totals", "clinic.totals"),
    ("clinic", "replicate 5 --first 1", "clinic.csv"),
    ("ft06", "one", "ft06.txt"),
    ("ft06", "run", "ft06.txt"),
    ("ft06", "totals", "ft06.totals"),
    ("job-shop", "totals", "job-shop.totals"),
];

/// More bytes than any of the texts has.
const ROOM: usize = 1_048_576;

/// The records of the events.
const RECORDS: Telling = Telling::Lines { cycles: false };

/// The text of a model's simulation.
fn text_of<R: Threads + Sync>(
    rt: &R,
    alloc: Global,
    model: AnyModel,
    terms: Terms,
    machine: Machine,
) -> Result<MemSink, Unfinished>
    requires { IsMachine machine }
    ensures { IfOk result (λ sink. sink.taken ≡ text_from_start (meaning_of model) terms no_totals (Lines false)) }
{
    let stage = Stage {
        rt,
        alloc,
        gate: &Open,
    };
    let job = Job {
        model,
        terms,
        machine,
        telling: RECORDS,
    };
    let mut sink = MemSink::new(alloc, ROOM, Vec::new(alloc), Vec::new(alloc), ROOM)?;
    run_model::<R, Open, AnyModel, NoTally, MemSink>(stage, job, &mut sink)?;
    Ok(sink)
}

/// The text of the simulation of the model that these bytes are, and nothing where there is none.
fn told_of<R: Threads + Sync>(
    rt: &R,
    alloc: Global,
    bytes: &[u8],
    machine: Machine,
) -> Option<MemSink>
    requires { IsMachine machine }
    ensures { IfSome result (λ sink. IfOk (model_of bytes.now) (λ read. sink.taken ≡ text_from_start read.meaning read.terms no_totals (Lines false))) }
{
    let (model, terms) = read_model(alloc, bytes).ok()?;
    text_of(rt, alloc, model, terms, machine).ok()
}

/// Whether the example has the text that is stored beside it, by either engine.
fn agrees<R: AllocGlobal + Files + Threads + Sync>(
    rt: &R,
    alloc: Global,
    name: &str,
) -> io::Result<bool> {
    let model = fs::read(rt, format!(in alloc; "{name}.toml")?)?;
    let text = fs::read(rt, format!(in alloc; "{name}.txt")?)?;
    let by_one = told_of(rt, alloc, model.as_slice(), Machine::OneThread);
    let by_nodes = told_of(rt, alloc, model.as_slice(), Machine::Nodes(DEFAULT_SPREAD));
    let is_text = |told: Option<MemSink>| told.is_some_and(|sink| sink.bytes() == text.as_slice());
    Ok(is_text(by_one) && is_text(by_nodes))
}

/// A sink with room for any of the texts, if there is memory for it.
fn sink(alloc: Global) -> Option<MemSink> {
    match MemSink::new(alloc, ROOM, Vec::new(alloc), Vec::new(alloc), ROOM) {
        Ok(sink) => Some(sink),
        Err(_) => None,
    }
}

/// What these words answer to the text of a shop, if its run comes to its end and nothing is noted of it.
fn answer_of<R: AllocGlobal + Threads + Sync>(
    rt: &R,
    words: Vec<String>,
    model: Vec<u8>,
) -> Option<MemSink> {
    let alloc = rt.alloc();
    let mut source = MemSource::new(model, Vec::new(alloc), ROOM);
    let mut out = sink(alloc)?;
    let mut notes = sink(alloc)?;
    let status = run_program(rt, Ok(words), &mut source, &mut out, &mut notes, &Open);
    (status == 0 && notes.bytes().is_empty()).then_some(out)
}

/// Whether these words answer to the example of a shop with the text that is stored beside it.
fn shop_agrees<R: AllocGlobal + Files + Threads + Sync>(
    rt: &R,
    name: &str,
    words: &str,
    text: &str,
) -> io::Result<bool> {
    let alloc = rt.alloc();
    let model = fs::read(rt, format!(in alloc; "shops/{name}.toml")?)?;
    let text = fs::read(rt, format!(in alloc; "shops/{text}")?)?;
    let told = answer_of(rt, words_of(alloc, words)?, model);
    Ok(told.is_some_and(|sink| sink.bytes() == text.as_slice()))
}

fn main(rt: HostRuntime) -> io::Result<()> {
    for name in EXAMPLES {
        if agrees(&rt, rt.alloc(), name)? {
            println!(rt; "{name} agrees")?;
        } else {
            println!(rt; "{name} differs")?;
        }
    }
    for (name, words, text) in SHOPS {
        if shop_agrees(&rt, name, words, text)? {
            println!(rt; "{name} {words} agrees")?;
        } else {
            println!(rt; "{name} {words} differs")?;
        }
    }
    Ok(())
}
