//! Tables of a model of one's own: that they are written, and what a failed write leaves.
ghost use Rattle.std.specs.Prelude.{◌≡◌};

use super::{HOPS_OF_THE_LAST, HOPS_OF_THREE};
use event_key::Key;
use model_core::model::Model as SimulationModel;
use model_core::{OutOfMemory, Part};
use phold_model::Phold;
use random_streams::Law;
use replications::{Rows, RunEnd, Seeds, Study, WINDOW_HEAD, Windows, write_table};
use sim_io::MemSink;
use sim_spec::{Stop, Terms};
use sim_text::Unfinished;
use std::alloc::{AllocGlobal, Global};
use std::process::Abort;
use std::sync::Arc;
use std::test::Fail;
use std::thread::Threads;

/// One object, and one event that goes on to it after 1 to 10 ticks, from time 0 on.
#[derive(Drop)]
struct Hops;

/// The windows of its objects.
#[derive(Drop)]
struct HopRows {
    windows: Windows,
}

impl Rows<Phold> for HopRows {
    ghost use Rattle.std.specs.Prelude.{◌≡◌};
    ghost use Rattle.phold_model.specs.Meaning.{phold_meaning};
    ghost use Rattle.phold_model.specs.Views.{parts_of};
    ghost use Rattle.replications.specs.Rows.{window_rows};
    ghost use Rattle.replications.specs.Tables.{windows_of};

    ghost rows_of = { λ model. window_rows (phold_meaning (parts_of model)) };

    ghost sums_up = { λ model first_tick kept records. kept.windows ≡ windows_of first_tick (phold_meaning (parts_of model)).objects records };

    fn new(alloc: Global, model: &Phold, first_tick: u64) -> Result<HopRows, OutOfMemory> {
        let windows = Windows::new(alloc, model.objects(), first_tick)?;
        Ok(HopRows { windows })
    }

    fn add(&mut self, _model: &Phold, key: &Key, parts: &[Part]) {
        self.windows.add(key, parts);
    }

    fn put(
        &self,
        alloc: Global,
        model: &Phold,
        terms: &Terms,
        end: &RunEnd,
        into: &mut Vec<u8>,
    ) -> Result<(), OutOfMemory> {
        self.windows.put_rows(alloc, model, terms, end, into)?;
        Ok(())
    }
}

impl Seeds<Phold, HopRows> for Hops {
    ghost use Rattle.std.specs.Prelude.{[], true};
    ghost use Rattle.phold_model.specs.Meaning.{phold_meaning};
    ghost use Rattle.phold_model.specs.Parts.{phold_parts};
    ghost use Rattle.replications.specs.Rows.{window_rows};
    ghost use Rattle.random_streams.specs.declared.law.Law.{Law};

    ghost seeded = { λ _ seed. phold_meaning (phold_parts seed 1 (Law.Uniform 1 10) true 1 [] 0) };

    ghost rows = { λ _ seed. window_rows (phold_meaning (phold_parts seed 1 (Law.Uniform 1 10) true 1 [] 0)) };

    #[tactic(auto, unfolding(random_streams::specs::Laws::is_delay, random_streams::specs::Laws::is_drawable))]
    fn with_seed(&self, alloc: Global, seed: u64) -> Result<Arc<Phold>, OutOfMemory> {
        let delay = Law::Uniform { low: 1, high: 10 };
        let model = Phold::make(seed, 1, delay, true, 1, Vec::new(alloc), 0)?;
        let model = Arc::new(alloc, model)?;
        Ok(model)
    }
}

/// Hops from tick `first_tick` to tick 8, of at most `limit` events, under `count` seeds, by so many workers: the table, and the gravest of
/// the stops.
#[derive(Drop)]
struct Asked {
    first_tick: u64,
    limit: u64,
    first_seed: u64,
    count: u64,
    workers: u32,
    table: &'static str,
    worst: Stop,
}

/// Writes the table.
fn write<R: Abort + Threads + Sync>(
    rt: &R,
    alloc: Global,
    asked: &Asked,
    out: &mut MemSink,
) -> Result<Stop, Unfinished> {
    assert!(rt; asked.first_seed < 1 << 63);
    assert!(rt; asked.count < 1 << 32);
    assert!(rt; 1 <= asked.workers && asked.workers <= 64);
    let study = Study {
        models: Hops,
        head: WINDOW_HEAD,
        row_bytes: 274,
        terms: Terms {
            end: 8,
            limit: asked.limit.clamp(1, 1_000),
        },
        first_tick: asked.first_tick,
        first_seed: asked.first_seed,
    };
    write_table::<R, Phold, HopRows, Hops, MemSink>(
        rt,
        alloc,
        &study,
        asked.count,
        asked.workers,
        out,
    )
}

/// What a table came to, and the sink that took it.
#[derive(Drop)]
struct Outcome {
    stop: Result<Stop, Unfinished>,
    out: MemSink,
}

/// A sink that takes at most so many bytes of a write, and fails at these calls.
fn sink_of(alloc: Global, most: usize, fails: &[u64]) -> Result<MemSink, Fail> {
    let fails = fails.to_vec(alloc)?;
    Ok(MemSink::new(alloc, 100_000, fails, Vec::new(alloc), most.max(1))?)
}

/// Writes the table to a sink that takes at most so many bytes of a write, and fails at these calls.
fn written<R: Abort + AllocGlobal + Threads + Sync>(
    rt: &R,
    asked: &Asked,
    most: usize,
    fails: &[u64],
) -> Result<Outcome, Fail> {
    let mut out = sink_of(rt.alloc(), most, fails)?;
    let stop = write(rt, rt.alloc(), asked, &mut out);
    Ok(Outcome { stop, out })
}

/// Each of these is its table.
fn assert_tables<R: Abort + AllocGlobal + Threads + Sync>(
    rt: &R,
    tables: &[Asked],
    most: usize,
) -> Result<(), Fail> {
    for asked in tables {
        let outcome = written(rt, asked, most, &[])?;
        assert!(rt; outcome.out.bytes() == asked.table.as_bytes());
        assert!(rt; outcome.stop == Ok(asked.worst));
    }
    Ok(())
}

/// By one worker, by two and by 64.
const BY_WORKERS: [Asked; 3] = [
    Asked {
        first_tick: 0,
        limit: 1_000,
        first_seed: 0,
        count: 3,
        workers: 1,
        table: HOPS_OF_THREE,
        worst: Stop::End,
    },
    Asked {
        first_tick: 0,
        limit: 1_000,
        first_seed: 0,
        count: 3,
        workers: 2,
        table: HOPS_OF_THREE,
        worst: Stop::End,
    },
    Asked {
        first_tick: 0,
        limit: 1_000,
        first_seed: 0,
        count: 3,
        workers: 64,
        table: HOPS_OF_THREE,
        worst: Stop::End,
    },
];

#[test]
fn a_table_is_the_same_for_any_number_of_workers(rt: HostRuntime) -> Result<(), Fail> {
    assert_tables(&rt, &BY_WORKERS, 1_000)
}

const FROM_THE_LAST: [Asked; 1] = [Asked {
    first_tick: 0,
    limit: 1_000,
    first_seed: 9_223_372_036_854_775_807,
    count: 2,
    workers: 4,
    table: HOPS_OF_THE_LAST,
    worst: Stop::End,
}];

#[test]
fn seeds_go_on_from_0_behind_the_last_one(rt: HostRuntime) -> Result<(), Fail> {
    assert_tables(&rt, &FROM_THE_LAST, 1_000)
}

const CUT: [Asked; 2] = [
    Asked {
        first_tick: 4,
        limit: 1_000,
        first_seed: 0,
        count: 2,
        workers: 4,
        table: table!(
            "0,p0,2,2,0,0,0,0,0,4,3,end"
            "1,p0,1,1,0,0,0,0,0,4,2,end"
        ),
        worst: Stop::End,
    },
    Asked {
        first_tick: 0,
        limit: 2,
        first_seed: 0,
        count: 2,
        workers: 4,
        table: table!(
            "0,p0,2,2,0,0,0,0,0,5,2,limit"
            "1,p0,2,2,0,0,0,0,0,8,2,end"
        ),
        worst: Stop::Limit,
    },
];

#[test]
fn a_window_begins_late_and_a_limit_is_seen(rt: HostRuntime) -> Result<(), Fail> {
    assert_tables(&rt, &CUT, 1_000)
}

const OF_TWO: Asked = Asked {
    first_tick: 0,
    limit: 1_000,
    first_seed: 0,
    count: 2,
    workers: 2,
    table: table!(
        "0,p0,3,3,0,0,0,0,0,8,3,end"
        "1,p0,2,2,0,0,0,0,0,8,2,end"
    ),
    worst: Stop::End,
};

#[test]
fn a_write_fails_at_each_call(rt: HostRuntime) -> Result<(), Fail> {
    let whole = written(&rt, &OF_TWO, 16, &[])?;
    assert!(rt; whole.out.bytes() == OF_TWO.table.as_bytes());
    for call in 1..10u64 {
        let outcome = written(&rt, &OF_TWO, 16, &[call])?;
        assert!(rt; outcome.stop == Err(Unfinished::WriteFault));
        assert!(rt; outcome.out.bytes().len() < whole.out.bytes().len());
        assert!(rt; whole.out.bytes().starts_with(outcome.out.bytes()));
    }
    Ok(())
}
