//! Where nodes stand in a simulation.
ghost use Rattle.std.specs.Prelude.{◌≡◌, true, false};
ghost use Rattle.cycle_core.specs.Busy.{NamesBusy};
ghost use Rattle.cycle_core.specs.Gathered.{HasEventBefore, HasNoneBefore, HaveEventBefore, HaveNoneBefore};

use crate::knowing::know_all;
use model_core::model::Model as SimulationModel;
use node_core::Node;

/// Whether a node has an event whose stamp is below a bound.
fn is_before<M: SimulationModel>(node: &Node<M>, bound: u64) -> bool
    ensures some { result ≡ true → HasEventBefore M.meaning bound node.now }
    ensures none { result ≡ false → HasNoneBefore M.meaning bound node.now }
{
    node.tells_keys();
    if node.pending() == 0 {
        return false;
    }
    match node.least() {
        Some(key) => key.stamp < bound,
        None => false,
    }
}

/// Whether these nodes have an event whose stamp is below a bound. It looks no further than the first node that has.
pub fn has_event_before<M: SimulationModel>(nodes: &[Node<M>], bound: u64) -> bool
    ensures some { result ≡ true → HaveEventBefore M.meaning bound nodes.now }
    ensures none { result ≡ false → HaveNoneBefore M.meaning bound nodes.now }
{
    for node in nodes {
        if is_before(node, bound) {
            return true;
        }
    }
    false
}

/// The same, of nodes of which these alone may have events.
pub fn has_event_among<M: SimulationModel>(nodes: &[Node<M>], busy: &[usize], bound: u64) -> bool
    requires { NamesBusy nodes.now busy.now }
    ensures some { result ≡ true → HaveEventBefore M.meaning bound nodes.now }
    ensures none { result ≡ false → HaveNoneBefore M.meaning bound nodes.now }
{
    know_all(nodes);
    for k in 0..busy.len() {
        let place = busy[k];
        if is_before(&nodes[place], bound) {
            return true;
        }
    }
    false
}
