//! One change of an object's cells.

/// A change of a word, of one end of a line, or of a value in a line.
#[derive(Clone, Copy, Debug, PartialEq, Eq)]
pub enum Change {
    /// The word takes the value.
    Set { word: u32, value: u64 },
    /// The value goes in as the line's last.
    Push { line: u32, value: u64 },
    /// The line's first value goes out.
    Pop { line: u32 },
    /// The line's last value goes out.
    Unpush { line: u32 },
    /// The value goes in as the line's first.
    Unpop { line: u32, value: u64 },
    /// Each bit of the value at the place turns, the line's first value being at place 0.
    Flip { line: u32, place: u64 },
}
