//! Why a model text is refused.
ghost use Rattle.std.specs.Prelude.{◌≡◌};
ghost use Rattle.model_reader.specs.declared.refusal.Refusal.TheVariants.{OutOfMemory};

use delta_exchange::OutOfMemory;
use std::alloc::{AllocError, AllocFailed};
use thiserror::Error;

/// Why a model text is not read.
#[derive(Clone, Copy, Debug, PartialEq, Eq, Error)]
pub enum Refusal {
    /// The code of the first check that fails, and the item that it speaks of. What codes and items mean is the reader's:
    /// most take item 0 for the model as a whole.
    #[error("refused with code {code} at item {item}")]
    At { code: u8, item: u32 },
    #[error("out of memory")]
    OutOfMemory,
}

impl From<AllocError> for Refusal {
    ghost from_gives = { λ _ refusal. refusal ≡ OutOfMemory };

    fn from(_: AllocError) -> Refusal {
        Refusal::OutOfMemory
    }
}

impl<T: Drop> From<AllocFailed<T>> for Refusal {
    ghost from_gives = { λ _ refusal. refusal ≡ OutOfMemory };

    fn from(_: AllocFailed<T>) -> Refusal {
        Refusal::OutOfMemory
    }
}

impl From<OutOfMemory> for Refusal {
    ghost from_gives = { λ _ refusal. refusal ≡ OutOfMemory };

    fn from(_: OutOfMemory) -> Refusal {
        Refusal::OutOfMemory
    }
}
