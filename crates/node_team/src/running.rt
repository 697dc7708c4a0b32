//! The advance of all nodes of a world.
ghost use Rattle.std.specs.Prelude.{◌≡◌, ◌≤◌, length, IfOk, OnOk};
ghost use Rattle.sim_spec.specs.State.{State};
ghost use Rattle.cycle_core.specs.Worlds.{StandsAt, IsSameWorld};
ghost use Rattle.node_team.specs.Forks.{AllHaveRun, CanAllRun};
ghost use Rattle.node_team.specs.Handings.{IsHanding};

use crate::advancing::advance;
use crate::floor::floor_of;
use crate::gate::Gate;
use crate::handing::Handing;
use crate::seating::{advance_all, seat_all, unseat_all};
use crate::setting::Setting;
use crate::stealing::advance_by;
use cycle_core::{World, know_all};
use event_key::end_bound;
use horizon_word::{HorizonWord, WordSeat};
use model_core::OutOfMemory;
use model_core::model::Model as SimulationModel;
use node_core::Node;
use std::thread::Threads;
use world_spec::laws::law_world;

/// Advances some nodes, one after another, on the calling thread.
fn advance_in_turn<R, M: SimulationModel, G: Gate>(
    setting: &Setting<R, G>,
    word: &HorizonWord,
    nodes: &mut [Node<M>],
    seats: &mut Vec<WordSeat>,
) -> Result<(), OutOfMemory>
    requires many { length nodes.old ≤ length seats.old.items }
    requires can { CanAllRun M.meaning word.now nodes.old seats.old.items }
    ensures { OnOk result (AllHaveRun M.meaning setting.now.ahead nodes.old nodes.new) }
{
    for node in nodes.iter_mut() {
        let Some(mut seat) = seats.pop() else {
            unreachable!()
        };
        advance(
            setting.alloc,
            node,
            word,
            &mut seat,
            setting.ahead,
            setting.gate,
        )?;
    }
    Ok(())
}

/// Advances nodes as they are handed out. For a fork they move to their seats, so that each thread owns its own.
fn advance_nodes<R: Threads + Sync, M: SimulationModel, G: Gate>(
    setting: &Setting<R, G>,
    word: &HorizonWord,
    handing: Handing,
    nodes: Vec<Node<M>>,
    seats: &mut Vec<WordSeat>,
) -> Result<Vec<Node<M>>, OutOfMemory>
    requires handing { IsHanding handing }
    requires many { length nodes.items ≤ length seats.old.items }
    requires can { CanAllRun M.meaning word.now nodes.items seats.old.items }
    ensures { IfOk result (λ now. AllHaveRun M.meaning setting.now.ahead nodes.items now.items) }
{
    match handing {
        Handing::InTurn => {
            let mut nodes = nodes;
            advance_in_turn(setting, word, nodes.as_mut_slice(), seats)?;
            Ok(nodes)
        }
        Handing::InParts(threads) => {
            let mut all = seat_all(setting.alloc, nodes, seats)?;
            advance_all(setting, word, threads, all.as_mut_slice());
            unseat_all(setting.alloc, all)
        }
        Handing::Stolen(workers) => {
            let all = seat_all(setting.alloc, nodes, seats)?;
            let all = advance_by(setting, word, workers, all)?;
            unseat_all(setting.alloc, all)
        }
    }
}

/// Advances each node of a world below one word, as they are handed out, each with a seat of the list, whose room serves
/// cycle after cycle. After a refusal the world has lost its nodes.
pub fn advance_world<R: Threads + Sync, M: SimulationModel, G: Gate>(
    setting: &Setting<R, G>,
    world: &mut World<M>,
    handing: Handing,
    seats: &mut Vec<WordSeat>,
) -> Result<(), OutOfMemory>
    requires handing { IsHanding handing }
    requires stands { (s : State) × StandsAt (M.meaning world.old.model) world.old s }
    ensures run { OnOk result (AllHaveRun M.meaning setting.now.ahead world.old.nodes world.new.nodes) }
    ensures made { IsSameWorld world.old world.new }
    ensures world { OnOk result (world.new ≡ record world.old { nodes = world.new.nodes }) }
    ensures stands { OnOk result ((s : State) → StandsAt (M.meaning world.old.model) world.old s → StandsAt (M.meaning world.old.model) world.new s) }
{
    let terms = world.terms();
    law_world(world.model(), &terms);
    let end = end_bound(terms.end);
    let nodes = world.take_nodes();
    know_all(&nodes);
    let floor = floor_of(&nodes, end);
    let word = HorizonWord::begin_with(setting.alloc, floor, end, nodes.len(), seats)?;
    let nodes = advance_nodes(setting, &word, handing, nodes, seats)?;
    world.put_nodes(nodes);
    Ok(())
}
