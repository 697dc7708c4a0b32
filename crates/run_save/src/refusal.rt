//! Why a state text is refused.
ghost use Rattle.std.specs.Prelude.{◌≡◌};
ghost use Rattle.run_save.specs.Causes.{state_code_name};
ghost use Rattle.run_save.specs.declared.refusal.StateRefusal.TheVariants.{OutOfMemory};

use delta_exchange::OutOfMemory;
use std::alloc::{AllocError, AllocFailed};
use thiserror::Error;

/// What the first check that fails found.
#[derive(Clone, Copy)]
pub enum StateCause {
    /// The text has more bytes than `MOST_STATE_BYTES`.
    TooLong,
    /// A line isn't of its form.
    BadLine,
    /// The model is refused.
    BadModel,
    /// No simulation of the model meets the state.
    Unlawful,
}

/// Why a state text is not read.
#[derive(Clone, Copy, Debug, PartialEq, Eq, Error)]
pub enum StateRefusal {
    /// The code of the first check that fails, from 1 to 4, and the line that it speaks of. Lines are counted from 1,
    /// and line 0 is the text as a whole.
    #[error("refused with code {code} at line {line}")]
    At { code: u8, line: u64 },
    /// Memory ran out while it was read.
    #[error("out of memory")]
    OutOfMemory,
}

impl From<AllocError> for StateRefusal {
    ghost from_gives = { λ _ refusal. refusal ≡ OutOfMemory };

    fn from(_: AllocError) -> StateRefusal {
        StateRefusal::OutOfMemory
    }
}

impl<T: Drop> From<AllocFailed<T>> for StateRefusal {
    ghost from_gives = { λ _ refusal. refusal ≡ OutOfMemory };

    fn from(_: AllocFailed<T>) -> StateRefusal {
        StateRefusal::OutOfMemory
    }
}

impl From<OutOfMemory> for StateRefusal {
    ghost from_gives = { λ _ refusal. refusal ≡ OutOfMemory };

    fn from(_: OutOfMemory) -> StateRefusal {
        StateRefusal::OutOfMemory
    }
}

impl StateCause {
    ghost use Rattle.std.specs.Prelude.{◌≡◌};
    ghost use Rattle.run_save.specs.declared.refusal.StateRefusal.TheVariants.{At};
    ghost use Rattle.run_save.specs.Causes.{cause_code};

    /// Its code, from 1 to 4.
    pub fn code(self) -> u8
        ensures { result ≡ cause_code self }
    {
        match self {
            StateCause::TooLong => 1,
            StateCause::BadLine => 2,
            StateCause::BadModel => 3,
            StateCause::Unlawful => 4,
        }
    }

    /// The refusal at a line.
    pub(crate) fn at(self, line: u64) -> StateRefusal
        ensures { result ≡ At (cause_code self) line }
    {
        StateRefusal::At {
            code: self.code(),
            line,
        }
    }
}

/// What a code from 1 to 4 is called. Any other code has no name, and gives an empty text.
pub fn state_code_name(code: u8) -> &'static str
    ensures { result.now ≡ state_code_name code }
{
    match code {
        1 => "TooLong",
        2 => "BadLine",
        3 => "BadModel",
        4 => "Unlawful",
        _ => "",
    }
}
