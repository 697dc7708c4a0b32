//! What orders the pending events.
ghost use Rattle.std.specs.Prelude.{◌≡◌};
ghost use Rattle.event_key.specs.Keys.{key_lt};

/// The key of an event. Keys are compared by stamp, then rank, then destination, then source, then serial.
#[derive(Clone, Copy, Debug, PartialEq, Eq, PartialOrd, Ord)]
pub struct Key {
    /// When the event happens: a time and a step.
    pub stamp: u64,
    /// Of events of one stamp the one of smaller rank comes first. At most `MOST_RANK` in a simulation.
    pub rank: u32,
    /// The object at which the event happens.
    pub dest: u32,
    /// The object that sent it, or `INITIAL`.
    pub src: u32,
    /// How many events its source had sent before, or its place among the initial events.
    pub serial: u64,
}

/// The greatest rank.
pub const MOST_RANK: u32 = 255;

/// The source of an initial event.
pub const INITIAL: u32 = 4294967295;

impl Key {
    /// Whether this key comes before another.
    #[tactic(auto, unfolding(crate::specs::Keys::key_lt, crate::specs::Keys::key_cmp))]
    pub fn is_before(&self, other: &Key) -> bool
        ensures { result ≡ key_lt self.now other.now }
    {
        self < other
    }
}
