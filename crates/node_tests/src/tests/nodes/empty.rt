//! A node without objects: of two nodes, the second, where the model has one object.
use super::{Act, perform_both};
use event_key::NO_STAMP;
use phold_model::Phold;
use random_streams::Law;
use sim_spec::Terms;
use std::test::Fail;

const NOTHING: [Act; 6] = [
    Act::Idle,
    Act::Held(NO_STAMP),
    Act::Least(None),
    Act::Faulted(None),
    // at step 0 of time 9
    Act::CommitNothing(9 * 65_536, 2),
    Act::Counts(0, 0, 0, 0),
];

#[test]
fn a_node_without_objects_is_idle(rt: HostRuntime) -> Result<(), Fail> {
    let alloc = rt.alloc();
    let delay = Law::Fixed { value: 5 };
    assert!(rt; delay.is_delay());
    let model = Phold::make(0, 1, delay, false, 0, Vec::new(alloc), 0)?;
    let terms = Terms { end: 9, limit: 100 };
    perform_both(&rt, alloc, model, terms, (1, 2), &NOTHING, &[])
}
