//! The end of a text.
ghost use Rattle.std.specs.Prelude.{◌≡◌, ℕ, List, OnOk};
ghost use Rattle.sim_text.specs.Written.{HasWritten};
ghost use Rattle.model_program.specs.Handed.{HandsOn};

use sim_io::Sink;
use sim_text::Unfinished;

/// Hands on what was written, however that ended.
pub fn hand_on<T: Drop, K: Sink>(
    outcome: Result<T, Unfinished>,
    out: &mut K,
) -> Result<T, Unfinished>
    ensures written { (before : _) (bytes : List ℕ) → HasWritten K.Sink before out.old outcome bytes → HasWritten K.Sink before out.new result bytes }
    ensures handed { HandsOn K.Sink out.new result }
    ensures same { OnOk result (result ≡ outcome) }
{
    out.flush()?;
    outcome
}
