//! Totals of one's own: a tally of a few lines, whose lines come at the end of a run.
ghost use Rattle.model_program.specs.Machines.{IsMachine};

use event_key::Key;
use model_core::{OutOfMemory, Part};
use model_program::{DEFAULT_SPREAD, Job, Machine, Open, Stage, run_model};
use model_text::{AnyModel, read_model};
use run_tally::Tally;
use sim_io::MemSink;
use sim_spec::{Stop, Terms};
use sim_text::Telling;
use std::alloc::Global;
use std::process::Abort;
use std::test::Fail;
use std::thread::Threads;
use test_texts::TIE;

/// How many events there were.
#[derive(Drop)]
struct Events {
    count: u64,
}

impl Tally<AnyModel> for Events {
    ghost use Rattle.std.specs.Prelude.{◌≡◌, ◌++◌, length, codes, decimal};

    ghost lines = { λ _ _ records _. codes "events " ++ (decimal (length records) ++ codes "\n") };

    ghost sums_up = { λ _ events records. events.count ≡ length records };

    fn new(_alloc: Global, _model: &AnyModel) -> Result<Events, OutOfMemory> {
        Ok(Events { count: 0 })
    }

    fn add(&mut self, _model: &AnyModel, _key: &Key, _parts: &[Part]) {
        self.count += 1;
    }

    fn put(
        &self,
        alloc: Global,
        _model: &AnyModel,
        _terms: &Terms,
        _stop: &Stop,
        into: &mut Vec<u8>,
    ) -> Result<(), OutOfMemory> {
        let line = format!(in alloc; "events {}\n", self.count)?;
        into.extend_from_slice(line.as_bytes())?;
        Ok(())
    }
}

/// By this machine the totals of three hops are one line, and the line that says why the simulation stopped.
fn assert_counted<R: Abort + Threads + Sync>(
    rt: &R,
    alloc: Global,
    machine: Machine,
) -> Result<(), Fail>
    requires { IsMachine machine }
{
    let Ok((model, terms)) = read_model(alloc, TIE.as_bytes()) else {
        return Err(Fail::from("the model is refused"));
    };
    let mut out = MemSink::new(alloc, 4096, Vec::new(alloc), Vec::new(alloc), 64)?;
    let stage = Stage {
        rt,
        alloc,
        gate: &Open,
    };
    let job = Job {
        model,
        terms,
        machine,
        telling: Telling::Totals,
    };
    let ran = run_model::<R, Open, AnyModel, Events, MemSink>(stage, job, &mut out);
    let Ok(_) = ran else {
        return Err(Fail::from("the text isn't whole"));
    };
    let wanted = "events 3\nend 9 events 3\n";
    assert!(rt;
        std::str::from_utf8(out.bytes())? == wanted,
        "by {machine:?}"
    );
    Ok(())
}

#[test]
fn totals_are_what_a_tally_of_ones_own_says(rt: HostRuntime) -> Result<(), Fail> {
    assert_counted(&rt, rt.alloc(), Machine::OneThread)?;
    assert_counted(&rt, rt.alloc(), Machine::Nodes(DEFAULT_SPREAD))
}
