//! The floor of the word: a stamp that no node's offers fall below.
ghost use Rattle.std.specs.Prelude.{◌≡◌, ◌≤◌, ◌⊎◌};
ghost use Rattle.cycle_core.specs.Places.{AtEach};
ghost use Rattle.node_team.specs.Floors.{IsPastOne, IsPastOneOf};
ghost use Rattle.node_team.specs.Teams.{IsFloorOf};

use cycle_core::know;
use model_core::model::Model as SimulationModel;
use node_core::Node;

/// The lesser of a floor, and one more than the least stamp of a node's events.
fn lower_floor<M: SimulationModel>(node: &Node<M>, floor: u64) -> u64
    ensures lower { result ≤ floor }
    ensures floor { IsFloorOf (M.meaning node.now.model) result node.now }
    ensures least { (result ≡ floor) ⊎ IsPastOne (M.meaning node.now.model) result node.now }
{
    know(node);
    match node.least() {
        Some(key) if key.stamp < floor => key.stamp + 1,
        _ => floor,
    }
}

/// One more than the least stamp of the nodes' events, or the end.
pub fn floor_of<M: SimulationModel>(nodes: &[Node<M>], end: u64) -> u64
    ensures end { result ≤ end }
    ensures floor { AtEach (λ number n. IsFloorOf (M.meaning n.model) result n) nodes.now }
    ensures least { (result ≡ end) ⊎ IsPastOneOf M.meaning result nodes.now }
{
    let mut floor = end;
    for node in nodes {
        floor = lower_floor(node, floor);
    }
    floor
}
