//! The state of a world, taken out and put in.
ghost use Rattle.std.specs.Prelude.{◌≡◌, ◌≤◌, [], None, IfOk};
ghost use Rattle.std.specs.Arc.{arc_value};
ghost use Rattle.model_core.specs.declared.limits.TheConstants.{MOST_NODES};
ghost use Rattle.sim_spec.specs.Standing.{stands};
ghost use Rattle.sim_spec.specs.State.{State, Lawful};
ghost use Rattle.cycle_core.specs.Places.{AtEach};
ghost use Rattle.cycle_core.specs.Standings.{WorldStandsAt};
ghost use Rattle.cycle_core.specs.Starts.{ArePlacedBy};
ghost use Rattle.cycle_core.specs.Worlds.{StandsAt};

use super::{Basis, World};
use crate::beginning::{nodes_of_state, placed_homes};
use crate::saving::state_of;
use model_core::OutOfMemory;
use model_core::model::Model as SimulationModel;
use sim_spec::{Placement, State, Terms};
use std::alloc::Global;
use std::sync::Arc;

impl<M: SimulationModel> World<M> {
    /// A world at a state: so many nodes, with the objects placed on them.
    pub fn from_state(
        alloc: Global,
        model: Arc<M>,
        terms: Terms,
        nodes: u32,
        placement: Placement,
        state: State,
    ) -> Result<World<M>, OutOfMemory>
        requires low { 1 ≤ nodes }
        requires high { nodes ≤ MOST_NODES }
        requires lawful { Lawful (M.meaning (arc_value model)) terms state }
        ensures model { IfOk result (λ world. world.model ≡ arc_value model) }
        ensures terms { IfOk result (λ world. world.terms ≡ terms) }
        ensures nodes { IfOk result (λ world. world.homes.nodes ≡ nodes) }
        ensures placed { IfOk result (λ world. ArePlacedBy placement world.homes) }
        ensures stands { IfOk result (λ world. WorldStandsAt M.meaning world (stands state None)) }
        ensures new { IfOk result (λ world. AtEach (λ number n. n.processed ≡ []) world.nodes) }
    {
        let count = state.count;
        let homes = placed_homes(alloc, &*model, nodes, placement)?;
        let (nodes, parcels) = nodes_of_state(alloc, &model, terms, &homes, state)?;
        let basis = Basis {
            model,
            terms,
            homes,
        };
        World::opened(alloc, basis, nodes, count, parcels)
    }

    /// Takes out the state for which the world stands. What is processed is undone first: the world stands for the same
    /// state, and does after a refusal.
    pub fn snapshot(&mut self, alloc: Global) -> Result<State, OutOfMemory>
        requires { (s : State) × StandsAt (M.meaning self.old.model) self.old s }
        ensures state { (s : State) → StandsAt (M.meaning self.old.model) self.old s → IfOk result (λ state. state ≡ s) }
        ensures stands { (s : State) → StandsAt (M.meaning self.old.model) self.old s → StandsAt (M.meaning self.new.model) self.new s }
        ensures world { self.new ≡ record self.old { nodes = self.new.nodes } }
    {
        self.knows_busy = false;
        let Some(nodes) = &mut self.nodes else {
            unreachable!()
        };
        let nodes = nodes.as_mut_slice();
        state_of(alloc, &*self.model, &*self.homes, nodes, self.count)
    }
}
