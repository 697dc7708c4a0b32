//! Why a measurement stops.
use delta_exchange::OutOfMemory;
use std::alloc::AllocError;
use std::fmt;

/// Why a measurement stops.
#[derive(Clone, Copy, Debug, PartialEq, Eq)]
pub enum Stopped {
    OutOfMemory,
    /// There are no such objects or nodes.
    Refused,
}

impl From<OutOfMemory> for Stopped {
    fn from(_refused: OutOfMemory) -> Stopped {
        Stopped::OutOfMemory
    }
}

impl From<AllocError> for Stopped {
    fn from(_refused: AllocError) -> Stopped {
        Stopped::OutOfMemory
    }
}

impl fmt::Display for Stopped {
    fn fmt<W: fmt::Write>(&self, f: &mut fmt::Formatter<W>) -> fmt::Result {
        match self {
            Stopped::OutOfMemory => write!(f, "out of memory"),
            Stopped::Refused => write!(
                f,
                "there are from 1 to 65536 objects, and from 1 to 64 nodes"
            ),
        }
    }
}
