//! What is told of the threads while a simulation runs.
use event_key::Key;

/// Something that is told which node does what. It changes nothing of a simulation.
///
/// What it was told are members for proofs alone, and hold of everything by default, so a gate has nothing to do for them.
/// But code for any gate has them from these calls only: where a clause asks for them, the gate was told just that.
pub trait Gate: Sync {
    ghost use Rattle.std.specs.Prelude.{ℕ};
    ghost use Rattle.event_key.specs.declared.key.Key.{Key};

    /// The gate was told that this node begins.
    ghost was_entered: { Self → ℕ → Type 0 } = { λ _ _. Unit {0} };

    /// The gate was told that this node has processed the event of this key.
    ghost was_told: { Self → ℕ → Key → Type 0 } = { λ _ _ _. Unit {0} };

    /// A node begins its part of a cycle.
    fn enter(&self, node: u32)
        ensures { was_entered self.now node };

    /// A node has processed the event of this key.
    fn did(&self, node: u32, key: &Key)
        ensures { was_told self.now node key.now };
}

/// A gate that is always open: it ignores what it is told.
#[derive(Clone, Copy, Debug, PartialEq, Eq)]
pub struct Open;

impl Gate for Open {
    fn enter(&self, _node: u32) {}

    fn did(&self, _node: u32, _key: &Key) {}
}
