//! Writing a whole text.
ghost use Rattle.std.specs.Prelude.{◌≡◌, ◌≤◌, OnOk, OnErr, length, take};
ghost use Rattle.sim_io.specs.Causes.{HasCause};
ghost use Rattle.sim_io.specs.Taken.{Appends};
ghost use Rattle.sim_io.specs.Transfers.{AppendsPrefix};

use crate::streams::failed::Failed;
use crate::streams::sink::Sink;

/// Writes until all the bytes are taken, or a write fails or takes nothing. The count is of those that were taken.
pub(crate) fn write_prefix<K: Sink>(sink: &mut K, bytes: &[u8]) -> (usize, Result<(), Failed>)
    ensures count { result.0 ≤ length bytes.now }
    ensures taken { Appends (K.told sink.old) (K.told sink.new) (take result.0 bytes.now) }
    ensures all { OnOk result.1 (result.0 ≡ length bytes.now) }
    ensures cause { HasCause (K.faults sink.old) (K.faults sink.new) result.1 }
    ensures quiet { OnOk result.1 (K.faults sink.new ≡ K.faults sink.old) }
{
    let mut at = 0;
    while at < bytes.len() {
        let (_, rest) = bytes.split_at(at);
        match sink.write(rest) {
            Ok(0) => return (at, Err(Failed)),
            Ok(count) => at += count,
            Err(failed) => return (at, Err(failed)),
        }
    }
    (at, Ok(()))
}

/// Writes all the bytes. Where a write fails or takes nothing, a prefix of them was taken.
pub fn write_all<K: Sink>(sink: &mut K, bytes: &[u8]) -> Result<(), Failed>
    ensures all { OnOk result (Appends (K.told sink.old) (K.told sink.new) bytes.now) }
    ensures prefix { OnErr result (AppendsPrefix (K.told sink.old) (K.told sink.new) bytes.now) }
    ensures cause { HasCause (K.faults sink.old) (K.faults sink.new) result }
    ensures quiet { OnOk result (K.faults sink.new ≡ K.faults sink.old) }
{
    let (_, outcome) = write_prefix(sink, bytes);
    outcome
}
