//! Worlds of nodes, on one thread and in threads: the text that each of them writes, what its nodes count, what a saved
//! state goes on with, and where a limit cuts a cycle.
mod counts;
mod cuts;
mod refusals;
mod saved;
mod texts;
mod threads;
mod world_run;

use super::model_of;
use model_text::AnyModel;
use sim_spec::Placement;
use std::alloc::Global;
use std::process::Abort;
use std::sync::Arc;
use std::test::Fail;
use world_run::WorldRun;

/// Both ways to place objects.
const PLACEMENTS: [Placement; 2] = [Placement::Round, Placement::Block];

/// A world at the start of a model.
fn world_of<R: Abort>(
    rt: &R,
    alloc: Global,
    text: &str,
    nodes: u32,
    placement: Placement,
) -> Result<WorldRun<AnyModel>, Fail> {
    let (model, terms) = model_of(alloc, text)?;
    assert!(rt; nodes >= 1 && nodes <= 64);
    let model = Arc::new(alloc, model)?;
    Ok(WorldRun::new(alloc, model, terms, nodes, placement)?)
}
