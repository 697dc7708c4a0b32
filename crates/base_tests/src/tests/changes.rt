//! What no clause says: that the calls succeed where there is memory, and what the clauses mean, by an
//! example.
ghost use Rattle.std.specs.Prelude.{◌≡◌, [], ◌∷◌, IfOk, OnOk};
ghost use Rattle.delta_exchange.specs.Changes.{AllFit, cells_after_all};

use delta_exchange::{Cells, Change, OutOfMemory};
use std::alloc::Global;
use std::process::Abort;
use std::test::Fail;

/// Does the changes of two events, each after its `room`, and takes them back, the later first.
#[tactic(auto, using(delta_exchange::proofs::Room::fitting_names_lines))]
fn react_twice_and_roll_back(
    cells: &mut Cells,
    first: &mut Vec<Change>,
    second: &mut Vec<Change>,
) -> Result<(), OutOfMemory>
    requires first { AllFit first.old.items cells.old.contents }
    requires second { AllFit second.old.items (cells_after_all first.old.items cells.old.contents) }
    ensures cells { OnOk result (cells.new.contents ≡ cells.old.contents) }
    ensures first { OnOk result (first.new.items ≡ first.old.items) }
    ensures second { OnOk result (second.new.items ≡ second.old.items) }
{
    cells.room(first)?;
    cells.apply(first);
    cells.room(second)?;
    cells.apply(second);
    cells.undo(second);
    cells.undo(first);
    Ok(())
}

/// Two words, and one line of two values.
fn example(alloc: Global) -> Result<Cells, OutOfMemory>
    ensures words { IfOk result (λ cells. cells.contents.words ≡ 7 ∷ 8 ∷ []) }
    ensures lines { IfOk result (λ cells. cells.contents.lines ≡ (1 ∷ 2 ∷ []) ∷ []) }
{
    let words = vec![in alloc; 7, 8]?;
    let line = vec![in alloc; 1, 2]?;
    let lines = vec![in alloc; line]?;
    Cells::new(alloc, words, lines)
}

/// Whether there are these words, and the one line has these values.
fn holds(cells: &Cells, words: [u64; 2], line: [u64; 2]) -> bool {
    cells.words() == 2
        && cells.lines() == 1
        && cells.line_len(0) == 2
        && [cells.word(0), cells.word(1)] == words
        && [cells.line_at(0, 0), cells.line_at(0, 1)] == line
}

/// There are these words, and the one line has these values.
fn assert_holds<R: Abort>(rt: &R, cells: &Cells, words: [u64; 2], line: [u64; 2]) {
    assert!(rt; holds(cells, words, line));
}

#[test]
#[tactic(auto, unfolding(delta_exchange::specs::Changes::AllFit))]
fn each_change_becomes_its_inverse_and_undo_takes_all_back(rt: HostRuntime) -> Result<(), Fail> {
    let alloc = rt.alloc();
    let mut cells = example(alloc)?;
    let changes = [
        Change::Set { word: 0, value: 9 },
        Change::Set { word: 0, value: 5 },
        Change::Push { line: 0, value: 3 },
        Change::Pop { line: 0 },
        Change::Flip { line: 0, place: 1 },
    ];
    let inverses = [
        Change::Set { word: 0, value: 7 },
        Change::Set { word: 0, value: 9 },
        Change::Unpush { line: 0 },
        Change::Unpop { line: 0, value: 1 },
        Change::Flip { line: 0, place: 1 },
    ];
    let mut log = changes;
    cells.room(&log)?;
    cells.apply(&mut log);
    assert_holds(&rt, &cells, [5, 8], [2, 18446744073709551612]);
    assert!(rt; log == inverses);

    cells.undo(&mut log);
    assert_holds(&rt, &cells, [7, 8], [1, 2]);
    assert!(rt; log == changes);
    Ok(())
}

#[test]
fn a_copy_has_the_same_words_and_lines(rt: HostRuntime) -> Result<(), Fail> {
    let alloc = rt.alloc();
    let cells = example(alloc)?;
    let copy = cells.copy(alloc)?;
    assert_holds(&rt, &copy, [7, 8], [1, 2]);
    assert_holds(&rt, &cells, [7, 8], [1, 2]);
    Ok(())
}

#[test]
#[tactic(auto, unfolding(delta_exchange::specs::Changes::AllFit, delta_exchange::specs::Changes::cells_after_all))]
fn two_events_are_taken_back_the_later_first(rt: HostRuntime) -> Result<(), Fail> {
    let alloc = rt.alloc();
    let mut cells = example(alloc)?;
    let first = [
        Change::Set { word: 0, value: 9 },
        Change::Push { line: 0, value: 3 },
    ];
    let second = [Change::Set { word: 0, value: 5 }, Change::Pop { line: 0 }];
    let mut earlier = Vec::from_slice(alloc, &first)?;
    let mut later = Vec::from_slice(alloc, &second)?;
    react_twice_and_roll_back(&mut cells, &mut earlier, &mut later)?;
    assert_holds(&rt, &cells, [7, 8], [1, 2]);
    assert!(rt; earlier.as_slice() == first.as_slice());
    assert!(rt; later.as_slice() == second.as_slice());
    Ok(())
}
