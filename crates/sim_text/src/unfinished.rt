//! Why a text was not written to its end.
use model_core::OutOfMemory;
use sim_io::Failed;

/// Why a text was not written to its end.
#[derive(Clone, Copy, Debug, PartialEq, Eq)]
pub enum Unfinished {
    WriteFault,
    OutOfMemory,
}

impl From<OutOfMemory> for Unfinished {
    ghost use Rattle.std.specs.Prelude.{◌≡◌};
    ghost use Rattle.sim_text.specs.declared.unfinished.Unfinished.TheVariants.{OutOfMemory as NoMemory};

    ghost from_gives = { λ _ e. e ≡ NoMemory };

    fn from(_: OutOfMemory) -> Unfinished {
        Unfinished::OutOfMemory
    }
}

impl From<Failed> for Unfinished {
    ghost use Rattle.std.specs.Prelude.{◌≡◌};
    ghost use Rattle.sim_text.specs.declared.unfinished.Unfinished.TheVariants.{WriteFault};

    ghost from_gives = { λ _ e. e ≡ WriteFault };

    fn from(_: Failed) -> Unfinished {
        Unfinished::WriteFault
    }
}
