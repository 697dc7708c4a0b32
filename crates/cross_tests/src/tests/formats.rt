//! What the second format adds to networks: ranks, quiet objects and traced stations, told with and without lines of cycles.
ghost use Rattle.model_program.specs.Machines.{IsMachine};

use model_program::{DEFAULT_SPREAD, Job, Machine, Open, Spread, Stage, run_model};
use model_text::{AnyModel, read_model};
use run_tally::NoTally;
use sim_io::{MemSink, Moves};
use sim_spec::Placement;
use sim_text::Telling;
use std::alloc::Global;
use std::process::Abort;
use std::test::Fail;
use std::thread::Threads;

/// A model, and its text without and with lines of cycles.
struct Case {
    what: &'static str,
    model: &'static str,
    records: &'static str,
    cycles: &'static str,
}

/// The first of two jobs that come at one time has the higher rank, so the second is served first.
const RANKED: Case = Case {
    what: "a job of a higher rank comes later",
    model: "format = 2
model = \"network\"
end = 10

[[object]]
name = \"s\"
kind = \"station\"
service = { law = \"fixed\", value = 2 }
next = \"out\"

[[object]]
name = \"out\"
kind = \"sink\"

[[job]]
time = 4
at = \"s\"
rank = 1

[[job]]
time = 4
at = \"s\"
",
    records: "4.0 s take 2 0
4.0 s wait 1 1
6.0 s done 2 0
6.1 out leave 2 2
8.0 s done 1 0
8.1 out leave 1 4
end 10 events 6
",
    cycles: "4.0 s take 2 0
4.0 s wait 1 1
cycle 1 horizon 6.0 events 2
6.0 s done 2 0
cycle 2 horizon 6.1 events 1
6.1 out leave 2 2
8.0 s done 1 0
cycle 3 horizon 8.1 events 2
8.1 out leave 1 4
cycle 4 horizon 11.0 events 1
end 10 events 6
",
};

const QUIET: Case = Case {
    what: "a line of a cycle counts the events of quiet objects",
    model: "format = 2
model = \"network\"
end = 20

[[object]]
name = \"in\"
kind = \"source\"
first = 1
every = { law = \"fixed\", value = 2 }
count = 3
next = \"s\"
quiet = true

[[object]]
name = \"s\"
kind = \"station\"
service = { law = \"fixed\", value = 3 }
line = 10
next = \"out\"

[[object]]
name = \"out\"
kind = \"sink\"
quiet = true
",
    records: "1.1 s take 1 0
3.1 s wait 2 1
4.0 s done 1 0
5.1 s wait 3 1
7.0 s done 2 0
10.0 s done 3 0
end 20 events 12
",
    cycles: "cycle 1 horizon 1.1 events 1
1.1 s take 1 0
cycle 2 horizon 3.1 events 2
3.1 s wait 2 1
4.0 s done 1 0
cycle 3 horizon 4.1 events 2
cycle 4 horizon 5.1 events 2
5.1 s wait 3 1
7.0 s done 2 0
cycle 5 horizon 7.1 events 2
10.0 s done 3 0
cycle 6 horizon 10.1 events 2
cycle 7 horizon 21.0 events 1
end 20 events 12
",
};

const TRACED: Case = Case {
    what: "a traced station tells its load after each event",
    model: "format = 2
model = \"network\"
end = 10

[[object]]
name = \"s\"
kind = \"station\"
service = { law = \"fixed\", value = 2 }
next = \"out\"
trace = true

[[object]]
name = \"out\"
kind = \"sink\"

[[job]]
time = 4
at = \"s\"

[[job]]
time = 4
at = \"s\"
",
    records: "4.0 s take 1 0
4.0 s load 1 0
4.0 s wait 2 1
4.0 s load 1 1
6.0 s done 1 0
6.0 s load 1 0
6.1 out leave 1 2
8.0 s done 2 0
8.0 s load 0 0
8.1 out leave 2 4
end 10 events 6
",
    cycles: "4.0 s take 1 0
4.0 s load 1 0
4.0 s wait 2 1
4.0 s load 1 1
cycle 1 horizon 6.0 events 2
6.0 s done 1 0
6.0 s load 1 0
cycle 2 horizon 6.1 events 1
6.1 out leave 1 2
8.0 s done 2 0
8.0 s load 0 0
cycle 3 horizon 8.1 events 2
8.1 out leave 2 4
cycle 4 horizon 11.0 events 1
end 10 events 6
",
};

/// This machine writes both texts of a case.
fn assert_case<R: Abort + Threads + Sync>(
    rt: &R,
    alloc: Global,
    case: &Case,
    machine: Machine,
) -> Result<(), Fail>
    requires { IsMachine machine }
{
    for (cycles, text) in [(false, case.records), (true, case.cycles)] {
        let Ok((model, terms)) = read_model(alloc, case.model.as_bytes()) else {
            return Err(Fail::from("the model is refused"));
        };
        let mut out = MemSink::new(alloc, 4096, Vec::new(alloc), Vec::new(alloc), 64)?;
        let stage = Stage {
            rt,
            alloc,
            gate: &Open,
        };
        let job = Job {
            model,
            terms,
            machine,
            telling: Telling::Lines { cycles },
        };
        let ran = run_model::<R, Open, AnyModel, NoTally, MemSink>(stage, job, &mut out);
        let Ok(_) = ran else {
            return Err(Fail::from("the text isn't whole"));
        };
        assert!(rt;
            std::str::from_utf8(out.bytes())? == text,
            "{} by {machine:?}",
            case.what
        );
    }
    Ok(())
}

/// Four nodes, and two that move their objects, one thread and nodes that don't run ahead write both texts of a case.
fn assert_by_all<R: Abort + Threads + Sync>(
    rt: &R,
    alloc: Global,
    case: &Case,
) -> Result<(), Fail> {
    assert_case(rt, alloc, case, Machine::OneThread)?;
    assert_case(rt, alloc, case, Machine::Nodes(DEFAULT_SPREAD))?;
    let alone = Spread {
        nodes: 1,
        ahead: 0,
        ..DEFAULT_SPREAD
    };
    assert_case(rt, alloc, case, Machine::Nodes(alone))?;
    let moving = Spread {
        nodes: 2,
        ahead: 1024,
        placement: Placement::Block,
        workers: Some(2),
        moves: Some(Moves::Turn),
    };
    assert_case(rt, alloc, case, Machine::Nodes(moving))
}

/// The cases of what the second format adds.
const CASES: [Case; 3] = [RANKED, QUIET, TRACED];

#[test]
fn the_second_format_adds_ranks_quiet_objects_and_traced_stations(
    rt: HostRuntime,
) -> Result<(), Fail> {
    for case in &CASES {
        assert_by_all(&rt, rt.alloc(), case)?;
    }
    Ok(())
}
