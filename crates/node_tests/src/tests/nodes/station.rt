//! A node with a station whose line is strict.
use super::{Act, perform_both};
use crate::tests::strict::{self, FIRST_DONE, JOB_1, JOB_2, JOB_3, KEY_3, TERMS};
use event_key::NO_STAMP;
use model_core::Part;
use std::test::Fail;
use test_models::Stingy;

/// Step 0 of time 9, when the first job is served.
const AT_9: u64 = 9 * 65_536;

/// That job 1 is taken at once.
const TAKEN: Part = Part {
    word: 3,
    a: 1,
    b: 0,
};

/// A job arrives at 5, 10 and 11, and each arrival is processed. Without the end of job 1 at 9 job 2 waits, and job 3 finds the
/// line full.
const AHEAD: [Act; 6] = [
    Act::Receive(JOB_1, 0),
    Act::Receive(JOB_2, 0),
    Act::Receive(JOB_3, 0),
    Act::Step(JOB_1, AT_9),
    Act::Step(JOB_2, NO_STAMP),
    Act::Step(JOB_3, NO_STAMP),
];

/// The same, but one step is refused and made again.
const REFUSED: [Act; 5] = [
    Act::Receive(JOB_1, 0),
    Act::Receive(JOB_2, 0),
    Act::Receive(JOB_3, 0),
    Act::StepToIdle(1),
    Act::Counts(3, 0, 0, 3),
];

/// The end of job 1 undoes both jobs that came after it, and the fault with them.
const TAKES_BACK: [Act; 5] = [
    Act::Faulted(Some((KEY_3, 2))),
    Act::Held(AT_9),
    Act::Commit(AT_9, JOB_1, TAKEN, FIRST_DONE, 2),
    Act::Faulted(None),
    Act::Counts(3, 2, 1, 0),
];

#[test]
fn a_straggler_takes_back_a_fault(rt: HostRuntime) -> Result<(), Fail> {
    let alloc = rt.alloc();
    let model = strict::station(alloc)?;
    perform_both(&rt, alloc, model, TERMS, (0, 1), &AHEAD, &TAKES_BACK)
}

// From there on all is as where no step was refused.
#[test]
fn a_refused_step_may_be_made_again(rt: HostRuntime) -> Result<(), Fail> {
    let alloc = rt.alloc();
    for before in 0..3 {
        let model = Stingy::new(strict::station(alloc)?, before);
        perform_both(&rt, alloc, model, TERMS, (0, 1), &REFUSED, &TAKES_BACK)?;
    }
    Ok(())
}
