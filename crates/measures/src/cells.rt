//! Pushes on one line of an object's cells, each after its own `room`.
ghost use Rattle.std.specs.Prelude.{◌≡◌, ◌<◌, length, IfOk};

use delta_exchange::{Cells, Change, OutOfMemory};
use std::alloc::Global;

/// One empty line.
fn empty_line(alloc: Global) -> Result<Cells, OutOfMemory>
    ensures { IfOk result (λ cells. 0 < length cells.contents.lines) }
{
    let line = Vec::new(alloc);
    let lines = vec![in alloc; line]?;
    Cells::new(alloc, Vec::new(alloc), lines)
}

/// Makes room for one value, and puts it in as the line's last.
#[tactic(auto, unfolding(delta_exchange::specs::Changes::AllFit, delta_exchange::specs::Changes::cells_after_all))]
fn push(cells: &mut Cells, value: u64) -> Result<(), OutOfMemory>
    requires { 0 < length cells.old.contents.lines }
    ensures { length cells.new.contents.lines ≡ length cells.old.contents.lines }
{
    let mut changes = [Change::Push { line: 0, value }];
    cells.room(&changes)?;
    cells.apply(&mut changes);
    Ok(())
}

/// The sum of the line, which wraps, after that many pushes of the numbers from 0 on.
pub fn sum_after(alloc: Global, pushes: u64) -> Result<u64, OutOfMemory> {
    let mut cells = empty_line(alloc)?;
    for value in 0..pushes {
        push(&mut cells, value)?;
    }
    let mut sum: u64 = 0;
    for place in 0..cells.line_len(0) {
        sum = sum.wrapping_add(cells.line_at(0, place));
    }
    Ok(sum)
}
