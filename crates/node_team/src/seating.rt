//! Nodes that advance at their seats, for a fork.
ghost use Rattle.std.specs.Prelude.{◌≡◌, ◌<◌, ◌≤◌, All, IfOk, OnOk, length, map};
ghost use Rattle.horizon_word.specs.Views.{SeatView};
ghost use Rattle.node_team.specs.Forks.{CanGo};
ghost use Rattle.node_team.specs.Turns.{node_in, AllAnswered, AllCanGo, AllHaveGone, AreSeatedWith, HasGone};

use crate::advancing::advance;
use crate::gate::Gate;
use crate::setting::Setting;
use horizon_word::{HorizonWord, WordSeat};
use model_core::OutOfMemory;
use model_core::model::Model as SimulationModel;
use node_core::Node;
use std::alloc::Global;
use std::thread::{Threads, for_each_mut};

/// A node, its seat on the word, and what its advance answered: one turn of a fork.
#[derive(Drop)]
pub struct Seated<M: SimulationModel> {
    pub node: Node<M>,
    pub seat: WordSeat,
    pub answer: Result<(), OutOfMemory>,
}

/// Advances the node of one seat.
pub fn advance_seated<R, M: SimulationModel, G: Gate>(
    setting: &Setting<R, G>,
    word: &HorizonWord,
    seated: &mut Seated<M>,
)
    requires { CanGo M.meaning word.now seated.old.node seated.old.seat }
    ensures { HasGone M.meaning word.now setting.now.ahead seated.old seated.new }
{
    seated.answer = advance(
        setting.alloc,
        &mut seated.node,
        word,
        &mut seated.seat,
        setting.ahead,
        setting.gate,
    );
}

/// Advances each node, in so many threads at most, the calling one among them.
pub fn advance_all<R: Threads + Sync, M: SimulationModel, G: Gate>(
    setting: &Setting<R, G>,
    word: &HorizonWord,
    threads: usize,
    all: &mut [Seated<M>],
)
    requires threads { 0 < threads }
    requires can { AllCanGo M.meaning word.now all.old }
    ensures { AllHaveGone M.meaning word.now setting.now.ahead all.old all.new }
{
    let work = |_place: usize, seated: &mut Seated<M>|
        requires { CanGo M.meaning word.now seated.old.node seated.old.seat }
        ensures { HasGone M.meaning word.entry.now setting.entry.now.ahead seated.old seated.new }
    { advance_seated(setting, word, seated) };
    for_each_mut(setting.rt, all, threads, &work);
}

/// Gives each node a seat, taken from a list.
pub fn seat_all<M: SimulationModel>(
    alloc: Global,
    nodes: Vec<Node<M>>,
    seats: &mut Vec<WordSeat>,
) -> Result<Vec<Seated<M>>, OutOfMemory>
    requires { length nodes.items ≤ length seats.old.items }
    ensures nodes { IfOk result (λ all. map node_in all.items ≡ nodes.items) }
    ensures seats { (seat : SeatView) → All (λ each. each ≡ seat) seats.old.items → IfOk result (λ all. AreSeatedWith seat all.items) }
{
    let mut all = Vec::with_capacity(alloc, nodes.len())?;
    for node in nodes {
        let Some(seat) = seats.pop() else {
            unreachable!()
        };
        all.push(Seated {
            node,
            seat,
            answer: Ok(()),
        })?;
    }
    Ok(all)
}

/// Answers the refusal of an advance, if one was refused.
fn answer_of<M: SimulationModel>(all: &[Seated<M>]) -> Result<(), OutOfMemory>
    ensures { OnOk result (AllAnswered all.now) }
{
    for seated in all {
        seated.answer?;
    }
    Ok(())
}

/// Takes the nodes from their seats. Where an advance was refused, so is this.
pub fn unseat_all<M: SimulationModel>(
    alloc: Global,
    all: Vec<Seated<M>>,
) -> Result<Vec<Node<M>>, OutOfMemory>
    ensures nodes { IfOk result (λ nodes. nodes.items ≡ map node_in all.items) }
    ensures answers { OnOk result (AllAnswered all.items) }
{
    answer_of(&all)?;
    let mut nodes = Vec::with_capacity(alloc, all.len())?;
    for seated in all {
        nodes.push_reserved(seated.node);
    }
    Ok(nodes)
}
