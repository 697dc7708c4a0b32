//! One move with all that it takes.
ghost use Rattle.std.specs.Prelude.{◌≡◌, ◌≢◌, ◌≤◌, ◌<◌, ◌+◌, length, IfOk};
ghost use Rattle.std.specs.Arc.{arc_value};
ghost use Rattle.node_core.specs.Homes.{home_of, rehomed};
ghost use Rattle.node_core.specs.Moving.{KeepObjects};
ghost use Rattle.cycle_core.specs.Moving.{processed_in};
ghost use Rattle.cycle_core.specs.Places.{AtEach, EachPair};
ghost use Rattle.object_moves.specs.Steps.{CanMake, IsStep, KeepsWorlds};

use crate::copies::Copies;
use cycle_core::know_all;
use model_core::OutOfMemory;
use model_core::model::Model as SimulationModel;
use node_core::{Homes, LogRoom, Node};
use std::alloc::Global;
use std::sync::Arc;

/// A move of an object from a node to another one, with the homes after it and room for the object and what it has processed.
#[derive(Drop)]
pub struct Step {
    pub object: u32,
    pub from: u32,
    pub to: u32,
    pub copies: Copies,
    pub room: LogRoom,
}

impl Step {
    /// All that a move takes, beside the homes after it.
    pub fn new(
        alloc: Global,
        homes: &Homes,
        object: u32,
        to: u32,
        places: usize,
    ) -> Result<(Step, Arc<Homes>), OutOfMemory>
        requires object { object < length homes.now.homes }
        requires node { to < homes.now.nodes }
        requires apart { home_of homes.now object ≢ to }
        ensures step { IfOk result (λ made. IsStep places homes.now made.0) }
        ensures object { IfOk result (λ made. made.0.object ≡ object) }
        ensures to { IfOk result (λ made. made.0.to ≡ to) }
        ensures after { IfOk result (λ made. arc_value made.1 ≡ rehomed homes.now object to) }
    {
        let from = homes.home(object);
        let after = homes.with_home(alloc, object, to)?;
        let mut copies = Copies::new(alloc, after, homes.nodes() as usize + 3)?;
        let after = copies.take();
        let room = LogRoom::new(alloc, homes.objects() as usize, places)?;
        let step = Step {
            object,
            from,
            to,
            copies,
            room,
        };
        Ok((step, after))
    }
}

/// Gives each node the homes, under which its objects are the same.
fn rehome<M: SimulationModel>(nodes: &mut [Node<M>], copies: &mut Copies)
    requires keep { AtEach (λ number n. KeepObjects n.number n.homes copies.old.homes) nodes.old }
    requires enough { length nodes.old ≤ copies.old.left }
    ensures nodes { EachPair (λ x y. y ≡ record x { homes = copies.old.homes }) nodes.old nodes.new }
    ensures same { copies.new.homes ≡ copies.old.homes }
{
    for i in 0..nodes.len() {
        nodes[i].set_homes(copies.take());
    }
}

/// Makes a move, and answers the homes after it. Takes no memory.
pub fn make<M: SimulationModel>(step: Step, nodes: &mut [Node<M>]) -> Arc<Homes>
    requires { CanMake M.meaning step nodes.old }
    ensures homes { arc_value result ≡ step.copies.homes }
    ensures processed { processed_in nodes.new ≡ processed_in nodes.old }
    ensures stands { KeepsWorlds M.meaning step nodes.old nodes.new }
{
    let Step {
        object,
        from,
        to,
        mut copies,
        room,
    } = step;
    know_all(nodes);
    nodes[from as usize].tells_homes();
    let moved = nodes[from as usize].take_out(object, copies.take(), room);
    nodes[to as usize].take_in(moved, copies.take());
    rehome(nodes, &mut copies);
    know_all(nodes);
    copies.into_last()
}
