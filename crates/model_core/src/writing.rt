//! Short texts, written at places of bytes that have room for them. Each call answers the place behind its text.
ghost use Rattle.std.specs.Prelude.{◌≡◌, ◌+◌, ◌<◌, ◌≤◌, [], ◌∷◌, length, take};
ghost use Rattle.model_core.specs.Writing.{WritesAt};

/// Writes a byte.
#[inline(always)]
pub fn write_byte(byte: u8, into: &mut [u8], at: usize) -> usize
    requires { at < length into.old }
    ensures { WritesAt into.old into.new at result (byte ∷ []) }
{
    into[at] = byte;
    at + 1
}

/// Writes the first bytes of a chunk. It copies the whole chunk, since a copy of a known size takes a few instructions:
/// what stands behind the text is of no use until something else is written there.
#[inline(always)]
pub fn write_first(count: usize, chunk: &[u8], into: &mut [u8], at: usize) -> usize
    requires count { count ≤ length chunk.now }
    requires room { at + length chunk.now ≤ length into.old }
    ensures { WritesAt into.old into.new at result (take count chunk.now) }
{
    into[at..at + chunk.len()].copy_from_slice(chunk);
    at + count
}
