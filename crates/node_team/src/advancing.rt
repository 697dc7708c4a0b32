//! The advance of one node.
ghost use Rattle.std.specs.Prelude.{◌≡◌, ◌≢◌, ◌≤◌, ◌+◌, length, IfOk, OnOk, OnErr};
ghost use Rattle.event_key.specs.declared.stamp.TheConstants.{NO_STAMP};
ghost use Rattle.event_key.specs.Stamps.{end_stamp};
ghost use Rattle.horizon_word.specs.Views.{IsSeatOf};
ghost use Rattle.node_core.specs.Nodes.{IsAsBefore};
ghost use Rattle.cycle_core.specs.Works.{IsSmall, WorksOn};
ghost use Rattle.node_team.specs.Advances.{AreFrom, CanAdvance, HasOffered, HasOfferedHeld, HasTold, IsDeep, IsIdleBelow, IsTurn};

use crate::gate::Gate;
use cycle_core::{know, step_small};
use event_key::end_bound;
use horizon_word::{HorizonWord, WordSeat};
use model_core::OutOfMemory;
use model_core::model::Model as SimulationModel;
use node_core::{Node, Step};
use std::alloc::Global;

/// What stays the same for an advance: its memory, the word, and the gate that is told of it.
#[derive(Drop)]
struct Shared<'a, G> {
    alloc: Global,
    word: &'a HorizonWord,
    gate: &'a G,
}

/// Offers a stamp to the word, by one step, and answers the word. A stamp that isn't below what the seat has offered needs
/// no fetch-min: it can't lower the word, and a load costs less.
fn offer(word: &HorizonWord, seat: &mut WordSeat, offered: &mut u64, stamp: u64) -> u64
    requires seat { IsSeatOf word.now seat.old }
    requires floor { stamp ≢ NO_STAMP → seat.old.floor ≤ stamp }
    requires offered { seat.old.least ≤ offered.old }
    requires end { offered.old ≤ NO_STAMP }
    ensures step { HasOffered seat.old stamp seat.new }
    ensures answer { result ≡ seat.new.seen }
    ensures offered { seat.new.least ≤ offered.new }
    ensures end { offered.new ≤ offered.old }
{
    if stamp >= *offered {
        return word.read(seat);
    }
    *offered = stamp;
    word.lower(seat, stamp)
}

/// Processes one event below a bound, offers what it sends and tells the gate. Answers the word, or None where the
/// node is idle below the bound.
fn turn<M: SimulationModel, G: Gate>(
    shared: &Shared<G>,
    node: &mut Node<M>,
    seat: &mut WordSeat,
    offered: &mut u64,
    bound: u64,
) -> Result<Option<u64>, OutOfMemory>
    requires seat { IsSeatOf shared.now.word.now seat.old }
    requires small { IsSmall (M.meaning node.old.model) node.old }
    requires bound { bound ≤ end_stamp node.old.terms.end }
    requires floor { AreFrom seat.old.floor node.old.waiting }
    requires offered { seat.old.least ≤ offered.old }
    requires end { offered.old ≤ NO_STAMP }
    ensures turn { IfOk result (λ answer. IsTurn (M.meaning node.old.model) bound node.old seat.old answer node.new seat.new) }
    ensures offered { seat.new.least ≤ offered.new }
    ensures end { offered.new ≤ offered.old }
    ensures told { HasTold (G.was_told shared.now.gate.now node.old.number) node.old node.new }
    ensures refused { OnErr result (IsAsBefore node.old node.new) }
    ensures seat { OnErr result (seat.new ≡ seat.old) }
{
    match step_small(shared.alloc, node, bound)? {
        Step::Idle => Ok(None),
        Step::Did { key, least } => {
            let answer = offer(shared.word, seat, offered, least);
            shared.gate.did(node.number(), &key);
            Ok(Some(answer))
        }
    }
}

/// Advances a node: offers the least stamp that it holds, processes its events below the word until none is left, and goes
/// on in the order of their keys until `ahead` events were processed in all, or it has none left. After each event it takes
/// one step on the word, and tells the gate.
///
/// Each clause is one part of a lawful advance: the node stands for what it stood for; nothing waits below the word that
/// was seen last; just what is held was offered; each event took a step on the word; and the node went `ahead`. The gate was
/// told of its number, and with that number of each event that it processed.
pub fn advance<M: SimulationModel, G: Gate>(
    alloc: Global,
    node: &mut Node<M>,
    word: &HorizonWord,
    seat: &mut WordSeat,
    ahead: u32,
    gate: &G,
) -> Result<(), OutOfMemory>
    requires seat { IsSeatOf word.now seat.old }
    requires can { CanAdvance (M.meaning node.old.model) node.old seat.old }
    ensures works { WorksOn (M.meaning node.old.model) node.old node.new }
    ensures seat { IsSeatOf word.now seat.new }
    ensures floor { seat.new.floor ≡ seat.old.floor }
    ensures idle { OnOk result (IsIdleBelow (M.meaning node.old.model) seat.new.seen node.new) }
    ensures offered { OnOk result (HasOfferedHeld (M.meaning node.old.model) seat.old node.new seat.new) }
    ensures taken { OnOk result (seat.old.taken + length node.new.processed ≤ seat.new.taken + length node.old.processed) }
    ensures deep { OnOk result (IsDeep (M.meaning node.old.model) ahead node.old node.new) }
    ensures entered { G.was_entered gate.now node.old.number }
    ensures told { HasTold (G.was_told gate.now node.old.number) node.old node.new }
{
    let shared = Shared { alloc, word, gate };
    gate.enter(node.number());
    know(node);
    let end = end_bound(node.terms().end);
    let mut offered = end;
    let held = node.open_cycle();
    let mut below = offer(word, seat, &mut offered, held);
    let mut left = ahead;
    'near: loop {
        match turn(&shared, node, seat, &mut offered, below)? {
            Some(answer) => below = answer,
            None => break,
        }
        left = left.saturating_sub(1);
    }
    'far: for _ in 0..left {
        know(node);
        match turn(&shared, node, seat, &mut offered, end)? {
            Some(_) => {}
            None => return Ok(()),
        }
    }
    Ok(())
}
