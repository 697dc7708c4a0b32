//! Sums over a run, and demos.
use super::{ended_by, told_by};
use model_program::Open;
use std::test::Fail;
use test_texts::{
    DRAWN, FALSE_FAULT, LOSING, NOTHING, SHOP, SHOP_OF_TEN, STRICT_LINE, sink_of, source_of,
};

/// Models, the status of each, and its totals.
const TOTALS: [(&str, u8, &str); 7] = [
    (
        SHOP,
        0,
        "in arrivals 0 served 3 lost 0 busy 0 waiting 0
s arrivals 3 served 3 lost 0 busy 9 waiting 3
out arrivals 3 served 3 lost 0 busy 0 waiting 0
end 20 events 12
",
    ),
    (
        LOSING,
        0,
        "s arrivals 2 served 1 lost 1 busy 5 waiting 0
out arrivals 1 served 1 lost 0 busy 0 waiting 0
end 10 events 4
",
    ),
    (
        FALSE_FAULT,
        0,
        "s arrivals 3 served 3 lost 0 busy 12 waiting 3
out arrivals 3 served 3 lost 0 busy 0 waiting 0
end 30 events 9
",
    ),
    (
        DRAWN,
        0,
        "p0 arrivals 3 served 3 lost 0 busy 0 waiting 0\nend 8 events 3\n",
    ),
    (NOTHING, 0, "end 20 events 0\n"),
    // as far as a fault
    (
        STRICT_LINE,
        1,
        "s arrivals 2 served 0 lost 0 busy 1 waiting 0
out arrivals 0 served 0 lost 0 busy 0 waiting 0
fault 7.0 s line-full
",
    ),
    // as far as the limit: the tenth event is the last but one of its cycle
    (
        SHOP_OF_TEN,
        7,
        "in arrivals 0 served 3 lost 0 busy 0 waiting 0
s arrivals 3 served 2 lost 0 busy 6 waiting 3
out arrivals 2 served 2 lost 0 busy 0 waiting 0
limit 10
",
    ),
];

#[test]
fn totals_are_sums_up_to_the_last_record_of_each_object(rt: HostRuntime) -> Result<(), Fail> {
    for (model, status, text) in &TOTALS {
        told_by(&rt, "totals", model)?.expect(*status, text, "", model)?;
    }
    Ok(())
}

/// The whole output of the largest demo.
const LARGEST: &str = "demo 256 events 116407 cycles 2001 last 1000.1
end 1000 events 116407
";

/// Words of demos, and what they write.
const DEMOS: [(&str, &str); 4] = [
    (
        "demo 1",
        "demo 1 events 1501 cycles 1501 last 1000.0\nend 1000 events 1501\n",
    ),
    (
        "demo 2",
        "demo 2 events 2316 cycles 1448 last 1000.1\nend 1000 events 2316\n",
    ),
    // The largest is run twice.
    ("demo 256", LARGEST),
    ("demo 256", LARGEST),
];

#[test]
fn a_demo_is_summed_up_and_reads_nothing(rt: HostRuntime) -> Result<(), Fail> {
    let alloc = rt.alloc();
    for (words, text) in &DEMOS {
        let source = source_of(alloc, b"no model", &[1])?;
        let run = ended_by(&rt, words, source, sink_of(alloc, &[], &[])?, &Open)?;
        run.expect(0, text, "", words)?;
    }
    Ok(())
}
