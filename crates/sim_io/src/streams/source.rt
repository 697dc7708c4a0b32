//! Where bytes come from.
ghost use Rattle.std.specs.Prelude.{◌≡◌, ◌<◌, ℕ, List, Option, IfOk, OnOk, length, take};
ghost use Rattle.std.specs.Io.{ReadsAtMost};
ghost use Rattle.std.specs.Io.KnownBytes.{ReadConsumes};
ghost use Rattle.sim_io.specs.Causes.{HasCause};
ghost use Rattle.sim_io.specs.Taken.{GivesMore};

use crate::streams::failed::Failed;

/// Something that gives bytes.
pub trait Source {
    /// The bytes still to come, where it tells them.
    ghost left: { Self → Option (List ℕ) };

    /// How often a read failed, a count that rises there alone.
    ghost faults: { Self → ℕ };

    /// These are the bytes that it has given so far. A member for proofs alone, which holds of everything by default, so that
    /// a source has nothing to do for it. But code for any source has it of just those bytes that reads gave.
    ghost gave: { Self → List ℕ → Type 0 } = { λ _ _. Unit {0} };

    /// A read for some bytes gave none. It is of the same kind.
    ghost is_at_end: { Self → Type 0 } = { λ _. Unit {0} };

    /// Moves the next bytes to the front of a piece, and answers how many. None into a piece that isn't empty is the
    /// end. A failed read takes none.
    fn read(&mut self, into: &mut [u8]) -> Result<usize, Failed>
        ensures bound { ReadsAtMost result into.new }
        ensures taken { ReadConsumes (left self.old) (left self.new) result into.new }
        ensures cause { HasCause (faults self.old) (faults self.new) result }
        ensures quiet { OnOk result (faults self.new ≡ faults self.old) }
        ensures gave { IfOk result (λ n. GivesMore (gave self.old) (gave self.new) (take n into.new)) }
        ensures end { IfOk result (λ n. n ≡ 0 → 0 < length into.new → is_at_end self.new) };
}
