//! Reading lists, whose lengths stand before them.
ghost use Rattle.std.specs.Prelude.{◌+◌, ◌<◌, ◌≤◌, length, vec_len, IfOk};
ghost use Rattle.run_save.specs.Checks.{Gives};
ghost use Rattle.run_save.specs.Rests.{any_field, counted, each};
ghost use Rattle.run_save.specs.Views.{lines_of, rest_of};

use crate::cursor::Cursor;
use crate::refusal::StateRefusal;
use std::alloc::Global;

/// How many bytes a number takes at least: a space and a digit.
const LEAST_NUMBER: u64 = 2;

impl Cursor<'_> {
    /// So many numbers. It asks for no more memory than the text that is left can fill.
    fn numbers(&mut self, alloc: Global, count: u64) -> Result<Vec<u64>, StateRefusal>
        ensures read { Gives (λ x. (x.items, rest_of self.new)) result (each any_field count (rest_of self.old)) }
        ensures few { IfOk result (λ x. vec_len x + length self.new.bytes.now ≤ length self.old.bytes.now) }
    {
        let room = count.min(self.bytes.len() as u64 / LEAST_NUMBER);
        let mut numbers = Vec::with_capacity(alloc, room as usize)?;
        for _ in 0..count {
            let number = self.any_field()?;
            numbers.push(number)?;
        }
        Ok(numbers)
    }

    /// How many numbers there are, and the numbers.
    #[tactic(auto, unfolding(crate::specs::Rests::counted))]
    pub fn counted(&mut self, alloc: Global) -> Result<Vec<u64>, StateRefusal>
        ensures read { Gives (λ x. (x.items, rest_of self.new)) result (counted (rest_of self.old)) }
        ensures few { IfOk result (λ x. vec_len x + length self.new.bytes.now < length self.old.bytes.now) }
    {
        let count = self.any_field()?;
        self.numbers(alloc, count)
    }

    /// So many lists of numbers.
    pub fn lines(&mut self, alloc: Global, count: u64) -> Result<Vec<Vec<u64>>, StateRefusal>
        ensures read { Gives (λ x. (lines_of x.items, rest_of self.new)) result (each counted count (rest_of self.old)) }
        ensures few { IfOk result (λ x. vec_len x + length self.new.bytes.now ≤ length self.old.bytes.now) }
    {
        let mut lines = Vec::new(alloc);
        for _ in 0..count {
            let line = self.counted(alloc)?;
            lines.push(line)?;
        }
        Ok(lines)
    }
}
