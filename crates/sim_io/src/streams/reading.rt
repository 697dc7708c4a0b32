//! Reading an input.
ghost use Rattle.std.specs.Prelude.{◌≡◌, ◌⊎◌, ◌+◌, ◌-◌, ◌≤◌, ◌<◌, ◌++◌, ◌^◌, ℕ, List, length, vec_len, IfOk, OnOk, OnErr, IsErrOf};
ghost use Rattle.std.specs.Io.KnownBytes.{Consumes, IsAtEnd};
ghost use Rattle.sim_io.specs.Causes.{Rose};
ghost use Rattle.sim_io.specs.Taken.{GivesMore};
ghost use Rattle.sim_io.specs.Transfers.{TakesUpTo, TakesSome};
ghost use Rattle.sim_io.specs.declared.streams.reading.ReadEnd.TheVariants.{OutOfMemory};

use crate::streams::failed::Failed;
use crate::streams::source::Source;
use model_core::MOST_TEXT_BYTES;
use std::alloc::{AllocError, Global};
use thiserror::Error;

/// Why reading ended before the end.
#[derive(Clone, Copy, Debug, PartialEq, Eq, Error)]
pub enum ReadEnd {
    #[error("read failed")]
    Failed,
    #[error("out of memory")]
    OutOfMemory,
}

impl From<AllocError> for ReadEnd {
    ghost from_gives = { λ _ end. end ≡ OutOfMemory };

    fn from(_: AllocError) -> ReadEnd {
        ReadEnd::OutOfMemory
    }
}

/// How many bytes of a model text are read at most: one more than it may have, so that a longer one is known.
pub const ENOUGH_BYTES: usize = MOST_TEXT_BYTES + 1;

/// How many bytes one read asks for at most. A piece stands on the stack, so the first thread's stack has grown by as much
/// before any other thread begins: later, where those have taken the address space, it might not grow any more, and
/// the process would be ended. In all, runs were seen to take 168 KiB of it.
const PIECE: usize = 262_144;

/// Reads one piece to the end of what was read, of which there is not enough yet, and answers how long it is.
fn read_piece<S: Source>(
    source: &mut S,
    enough: usize,
    bytes: &mut Vec<u8>,
) -> Result<usize, ReadEnd>
    requires { vec_len bytes.old < enough }
    ensures appended { IfOk result (λ n. (piece : List ℕ) × (bytes.new.items ≡ bytes.old.items ++ piece) × (length piece ≡ n)
        × Consumes (S.left source.old) (S.left source.new) piece × GivesMore (S.gave source.old) (S.gave source.new) piece) }
    ensures end { IfOk result (λ n. n ≡ 0 → IsAtEnd (S.left source.new)) }
    ensures ended { IfOk result (λ n. n ≡ 0 → S.is_at_end source.new) }
    ensures short { OnOk result (vec_len bytes.new ≤ enough) }
    ensures refused { OnErr result (TakesSome (enough - vec_len bytes.old) (S.left source.old) (S.left source.new)) }
    ensures later { S.faults source.old ≤ S.faults source.new }
    ensures failed { IsErrOf result ReadEnd.Failed → Rose (S.faults source.old) (S.faults source.new) }
    ensures quiet { OnOk result (S.faults source.new ≡ S.faults source.old) }
    ensures no_memory { IsErrOf result ReadEnd.OutOfMemory → S.faults source.new ≡ S.faults source.old }
{
    let mut piece = [0u8; PIECE];
    let room = (enough - bytes.len()).min(PIECE);
    let (into, _) = piece.split_at_mut(room);
    match source.read(into) {
        Ok(count) => {
            let (taken, _) = into.split_at(count);
            bytes.extend_from_slice(taken)?;
            Ok(count)
        }
        Err(Failed) => Err(ReadEnd::Failed),
    }
}

/// Reads to the end, or until there is one byte more than `most`, so that an input that is longer is known. After a
/// refusal the bytes that were read are lost.
pub fn read_some<S: Source>(alloc: Global, source: &mut S, most: usize) -> Result<Vec<u8>, ReadEnd>
    requires { most < 2 ^ 31 }
    ensures all { IfOk result (λ bytes. TakesUpTo (most + 1) (S.left source.old) (S.left source.new) bytes.items) }
    ensures gave { IfOk result (λ bytes. GivesMore (S.gave source.old) (S.gave source.new) bytes.items) }
    ensures enough { IfOk result (λ bytes. S.is_at_end source.new ⊎ (length bytes.items ≡ most + 1)) }
    ensures short { IfOk result (λ bytes. vec_len bytes ≤ most + 1) }
    ensures refused { OnErr result (TakesSome (most + 1) (S.left source.old) (S.left source.new)) }
    ensures later { S.faults source.old ≤ S.faults source.new }
    ensures failed { IsErrOf result ReadEnd.Failed → Rose (S.faults source.old) (S.faults source.new) }
    ensures quiet { OnOk result (S.faults source.new ≡ S.faults source.old) }
    ensures no_memory { IsErrOf result ReadEnd.OutOfMemory → S.faults source.new ≡ S.faults source.old }
{
    let mut bytes = Vec::new(alloc);
    while bytes.len() <= most {
        let count = read_piece(source, most + 1, &mut bytes)?;
        if count == 0 {
            return Ok(bytes);
        }
    }
    Ok(bytes)
}

/// Reads a model text: to its end, or until there are `ENOUGH_BYTES`. After a refusal the bytes that were read are lost.
pub fn read_all<S: Source>(alloc: Global, source: &mut S) -> Result<Vec<u8>, ReadEnd>
    ensures all { IfOk result (λ bytes. TakesUpTo ENOUGH_BYTES (S.left source.old) (S.left source.new) bytes.items) }
    ensures gave { IfOk result (λ bytes. GivesMore (S.gave source.old) (S.gave source.new) bytes.items) }
    ensures enough { IfOk result (λ bytes. S.is_at_end source.new ⊎ (length bytes.items ≡ ENOUGH_BYTES)) }
    ensures short { IfOk result (λ bytes. vec_len bytes ≤ ENOUGH_BYTES) }
    ensures refused { OnErr result (TakesSome ENOUGH_BYTES (S.left source.old) (S.left source.new)) }
    ensures later { S.faults source.old ≤ S.faults source.new }
    ensures failed { IsErrOf result ReadEnd.Failed → Rose (S.faults source.old) (S.faults source.new) }
    ensures quiet { OnOk result (S.faults source.new ≡ S.faults source.old) }
    ensures no_memory { IsErrOf result ReadEnd.OutOfMemory → S.faults source.new ≡ S.faults source.old }
{
    read_some(alloc, source, MOST_TEXT_BYTES)
}
