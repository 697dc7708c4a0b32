//! The beginning of a line.
ghost use Rattle.std.specs.Prelude.{◌≡◌};
ghost use Rattle.sim_io.specs.Heads.{IsHead};

use event_key::{step_of, time_of};
use model_core::{Digits, write_byte};

/// For how many bytes there is room behind a stamp and in the rest of its line: a name, a word and two numbers, each with
/// what stands round it.
pub const LINE: usize = 112;

/// A stamp and its text, with a space, as the lines of its events begin. Behind it stand bytes that mean nothing, so that
/// where it is copied there is room for the rest of a line.
#[derive(Drop)]
pub struct Head {
    pub stamp: u64,
    pub bytes: [u8; 112],
    /// How many bytes the text has.
    pub count: usize,
    ghost is_head: { IsHead stamp bytes count },
}

/// Writes the text of a stamp and a space at the beginning of some bytes, and answers how many they are.
#[inline(always)]
#[tactic(auto, unfolding(crate::specs::Texts::stamp_text))]
fn write_stamp(digits: &Digits, stamp: u64, bytes: &mut [u8; 112]) -> usize
    ensures { IsHead stamp bytes.new result }
{
    let dot = digits.write(time_of(stamp), bytes, 0);
    let step = write_byte(b'.', bytes, dot);
    let space = digits.write(u64::from(step_of(stamp)), bytes, step);
    write_byte(b' ', bytes, space)
}

impl Head {
    /// The head of a stamp's lines.
    pub fn new(digits: &Digits, stamp: u64) -> Head
        ensures { result.stamp ≡ stamp }
    {
        let mut bytes = [0; LINE];
        let count = write_stamp(digits, stamp, &mut bytes);
        Head {
            stamp,
            bytes,
            count,
        }
    }

    /// Makes it the head of another stamp's lines. Its bytes stay where they are.
    #[inline(always)]
    pub fn rewrite(&mut self, digits: &Digits, stamp: u64)
        ensures { self.new.stamp ≡ stamp }
    {
        self.count = write_stamp(digits, stamp, &mut self.bytes);
        self.stamp = stamp;
    }
}
