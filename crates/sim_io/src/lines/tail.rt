//! What stands in a line behind the word.
ghost use Rattle.std.specs.Prelude.{◌≡◌, ◌+◌, ◌≤◌, ◌++◌, codes, decimal, length};
ghost use Rattle.model_core.specs.Writing.{WritesAt};

use model_core::model::WORD_ROOM;
use model_core::{Digits, Part, write_byte};

/// For how many bytes there is room where the numbers of a line are written: two of 20 digits, a space and the line's end.
pub const NUMBERS: usize = 42;

/// For how many bytes there is room where the word and the numbers of a line are written.
pub const TAIL: usize = WORD_ROOM + NUMBERS;

/// Writes the numbers of a part of a note, and the end of the line.
#[inline(always)]
pub fn write_numbers(digits: &Digits, part: Part, into: &mut [u8], at: usize) -> usize
    requires { at + NUMBERS ≤ length into.old }
    ensures { WritesAt into.old into.new at result (decimal part.a ++ (codes " " ++ (decimal part.b ++ codes "\n"))) }
{
    let space = digits.write(part.a, into, at);
    let b = write_byte(b' ', into, space);
    let line_end = digits.write(part.b, into, b);
    write_byte(b'\n', into, line_end)
}
