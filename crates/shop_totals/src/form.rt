//! How sums are printed.
ghost use Rattle.std.specs.Prelude.{◌≡◌, ◌++◌, OnOk};
ghost use Rattle.shop_totals.specs.Forms.{Form};

use crate::line::Line;
use model_core::OutOfMemory;
use std::alloc::Global;

/// How the sums of a shop are printed, a line each. Where memory runs out, each method may have appended some of its text.
pub trait LineForm {
    /// What is printed.
    ghost form: { Self → Form };

    /// Appends what stands before a name.
    fn put_before(&self, into: &mut Vec<u8>) -> Result<(), OutOfMemory>
        ensures { OnOk result (into.new.items ≡ into.old.items ++ (form self.now).before) };

    /// Appends what is printed behind a name.
    fn put_line(&self, alloc: Global, line: &Line, into: &mut Vec<u8>) -> Result<(), OutOfMemory>
        ensures { OnOk result (into.new.items ≡ into.old.items ++ (form self.now).line line.now) };
}

/// The lines of totals.
#[derive(Clone, Copy, Debug, PartialEq, Eq)]
pub struct TotalLines;

impl LineForm for TotalLines {
    ghost use Rattle.shop_totals.specs.Forms.{total_lines};

    ghost form = { λ _. total_lines };

    fn put_before(&self, _into: &mut Vec<u8>) -> Result<(), OutOfMemory> {
        Ok(())
    }

    fn put_line(&self, alloc: Global, line: &Line, into: &mut Vec<u8>) -> Result<(), OutOfMemory> {
        match line {
            Line::Station(sums) => sums.put(alloc, into),
            Line::Visit(sums) => sums.put(alloc, into),
            Line::Class(sums) => sums.put(alloc, into),
        }
    }
}
