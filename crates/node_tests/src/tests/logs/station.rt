//! A log of a station whose line is strict.
use super::{Act, assert_acts};
use crate::tests::strict::{self, FIRST_DONE, FIRST_DONE_KEY, JOB_1, JOB_2, JOB_3, KEY_3};
use event_key::{NO_STAMP, STEPS};
use model_core::Part;
use std::test::Fail;

/// What the station tells of a job.
macro_rules! told {
    ($word:literal, $job:literal, $waiting:literal) => {
        Part {
            word: $word,
            a: $job,
            b: $waiting,
        }
    };
}

// Job 1 is taken at 5 and is done at 9. Without its end job 2 would wait and job 3 would find the line full. With it
// job 2 is taken at 10, and job 3 waits.
const TAKES_BACK: [Act; 17] = [
    // the three jobs arrive, and nothing else
    Act::Process(JOB_1, 9 * STEPS),
    Act::Process(JOB_2, NO_STAMP),
    Act::Process(JOB_3, NO_STAMP),
    Act::Faulted(Some((KEY_3, 2))),
    // the end of the first service comes late, and the two arrivals after it happen again
    Act::Back(FIRST_DONE_KEY, JOB_2),
    Act::Faulted(None),
    Act::Process(FIRST_DONE, 9 * STEPS + 1),
    Act::Process(JOB_2, 14 * STEPS),
    Act::Process(JOB_3, NO_STAMP),
    Act::Commit(10 * STEPS, None),
    Act::Committed(2),
    Act::Commit(12 * STEPS, None),
    Act::Told(JOB_1, told!(3, 1, 0)),
    Act::Told(FIRST_DONE, told!(6, 1, 0)),
    Act::Told(JOB_2, told!(3, 2, 0)),
    Act::Told(JOB_3, told!(4, 3, 1)),
    Act::Committed(0),
];

#[test]
fn a_straggler_takes_back_a_fault_that_never_happens(rt: HostRuntime) -> Result<(), Fail> {
    let model = strict::station(rt.alloc())?;
    assert_acts(&rt, rt.alloc(), model, 0, &TAKES_BACK)
}
