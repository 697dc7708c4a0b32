//! Which nodes have events.
ghost use Rattle.std.specs.Prelude.{OnOk};
ghost use Rattle.cycle_core.specs.Busy.{HasNoted, IsPast, NamesBusy};

use model_core::OutOfMemory;
use model_core::model::Model as SimulationModel;
use node_core::Node;

/// Notes the place of a node if it has events, processed ones among them.
pub fn note_busy<M: SimulationModel>(
    node: &Node<M>,
    place: usize,
    busy: &mut Vec<usize>,
) -> Result<(), OutOfMemory>
    ensures { OnOk result (HasNoted place node.now busy.old.items busy.new.items) }
{
    if node.pending() == 0 {
        return Ok(());
    }
    busy.push(place)?;
    Ok(())
}

/// Finds the nodes that have events, processed ones among them: their places, in order. It takes memory only if there is
/// too little room.
pub fn find_busy<M: SimulationModel>(
    nodes: &[Node<M>],
    busy: &mut Vec<usize>,
) -> Result<(), OutOfMemory>
    ensures { OnOk result (NamesBusy nodes.now busy.new.items) }
{
    busy.clear();
    for i in 0..nodes.len() {
        note_busy(&nodes[i], i, busy)?;
    }
    Ok(())
}

/// How many places come before the next one, if so many come before this one: one more if it is named.
pub fn past(busy: &[usize], place: usize, named: usize) -> usize
    ensures { IsPast busy.now place named result }
{
    let Some(next) = busy.get(named) else {
        return named;
    };
    if *next == place { named + 1 } else { named }
}

/// How many events these nodes have processed in all, modulo 2^64.
pub fn processed_by<M: SimulationModel>(nodes: &[Node<M>], busy: &[usize]) -> u64
    requires { NamesBusy nodes.now busy.now }
{
    let mut count: u64 = 0;
    for k in 0..busy.len() {
        let place = busy[k];
        count = count.wrapping_add(nodes[place].tallies().processed);
    }
    count
}
