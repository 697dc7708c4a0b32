//! Where bytes go.
ghost use Rattle.std.specs.Prelude.{◌≡◌, ◌<◌, ℕ, OnOk, IfOk};
ghost use Rattle.std.specs.Io.{WritesAtMost};
ghost use Rattle.sim_io.specs.Causes.{CountsIdle, HasCause};
ghost use Rattle.sim_io.specs.Taken.{Keeps, Taken, WriteAppends};
ghost use Rattle.sim_io.specs.Transfers.{KeepsBackSome};

use crate::streams::failed::Failed;

/// Something that takes bytes, and hands them on to where they go. It may keep the last ones back for a while.
pub trait Sink {
    /// The bytes taken so far: which they are, where it tells them, and what holds of them. That is for proofs alone: a sink
    /// that tells no bytes can have it hold of just those that its writes took, and code for any sink keeps to that.
    ghost told: { Self → Taken };

    /// Those of them that it has handed on.
    ghost handed: { Self → Taken };

    /// How often a write failed or took nothing, a count that rises there alone.
    ghost faults: { Self → ℕ };

    /// Takes the first bytes of a piece, and answers how many. A failed write takes none.
    fn write(&mut self, bytes: &[u8]) -> Result<usize, Failed>
        ensures bound { WritesAtMost result bytes.now }
        ensures taken { WriteAppends (told self.old) (told self.new) result bytes.now }
        ensures cause { HasCause (faults self.old) (faults self.new) result }
        ensures idle { CountsIdle (faults self.old) (faults self.new) bytes.now result }
        ensures quiet { IfOk result (λ n. 0 < n → faults self.new ≡ faults self.old) };

    /// Hands on what it keeps back. Where that fails, it may have handed on some of it, and keeps the rest.
    fn flush(&mut self) -> Result<(), Failed>
        ensures taken { Keeps (told self.old) (told self.new) }
        ensures all { OnOk result (Keeps (told self.new) (handed self.new)) }
        ensures cause { HasCause (faults self.old) (faults self.new) result }
        ensures quiet { OnOk result (faults self.new ≡ faults self.old) };

    /// What it keeps back are the last of the bytes taken.
    ghost in_order: { (sink : Self) → KeepsBackSome (told sink) (handed sink) };
}
