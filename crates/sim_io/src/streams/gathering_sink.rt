//! A sink that joins small writes, since a write to a file or a pipe costs more than many lines.
ghost use Rattle.std.specs.Prelude.{◌≡◌, ◌≤◌, ◌<◌, IfOk, OnOk, [], drop, vec_len};
ghost use Rattle.std.specs.Io.{WritesAtMost};
ghost use Rattle.sim_io.specs.Causes.{CountsIdle, HasCause};
ghost use Rattle.sim_io.specs.Taken.{WriteAppends, append_taken};
ghost use Rattle.sim_io.specs.Transfers.{AppendsSome};

use crate::room::append;
use crate::streams::failed::Failed;
use crate::streams::sink::Sink;
use crate::streams::writing::write_prefix;
use std::alloc::Global;
use std::marker::Model;

/// How many bytes are gathered at most.
const PIECE: usize = 16384;

/// A sink behind a buffer of 16,384 bytes: what it takes is handed on once there is no room for more. A write that would
/// fill the buffer by itself goes straight on. Contracts see the sink behind it and the bytes that it keeps back.
#[derive(Drop)]
pub struct GatheringSink<K> {
    inner: K,
    gathered: Vec<u8>,
}

impl<K> Model for GatheringSink<K> {
    ghost use Rattle.sim_io.specs.Gathering.{Gathering};

    ghost Value = { Gathering K };

    ghost view = { λ sink. record { inner = sink.inner; gathered = sink.gathered.items } };
}

impl<K: Sink> GatheringSink<K> {
    /// Hands on to this sink. Where there is no memory for the buffer, each write goes straight on.
    pub fn new(alloc: Global, inner: K) -> GatheringSink<K>
        ensures inner { result.inner ≡ inner }
        ensures empty { result.gathered ≡ [] }
    {
        let gathered = match Vec::with_capacity(alloc, PIECE) {
            Ok(room) => room,
            Err(_) => Vec::new(alloc),
        };
        GatheringSink { inner, gathered }
    }

    /// The sink that it hands on to.
    pub fn inner(&self) -> &K
        ensures { result.now ≡ self.now.inner }
    {
        &self.inner
    }

    /// The sink that it hands on to, without what is kept back.
    pub fn into_inner(self) -> K
        ensures { result ≡ self.inner }
    {
        let GatheringSink { inner, gathered: _ } = self;
        inner
    }
}

/// Lets the first bytes go.
fn remove_prefix(bytes: &mut Vec<u8>, count: usize)
    requires { count ≤ vec_len bytes.old }
    ensures rest { bytes.new.items ≡ drop count bytes.old.items }
{
    let len = bytes.len();
    bytes.as_mut_slice().copy_within(count..len, 0);
    bytes.truncate(len - count);
}

/// Hands on what was gathered. Where that fails, the rest of it stays.
fn hand_on<K: Sink>(gathered: &mut Vec<u8>, inner: &mut K) -> Result<(), Failed>
    ensures all { OnOk result (vec_len gathered.new ≡ 0) }
    ensures handed { AppendsSome (K.told inner.old) (K.told inner.new) gathered.old.items gathered.new.items }
    ensures cause { HasCause (K.faults inner.old) (K.faults inner.new) result }
    ensures quiet { OnOk result (K.faults inner.new ≡ K.faults inner.old) }
{
    let (count, outcome) = write_prefix(inner, gathered.as_slice());
    remove_prefix(gathered, count);
    outcome
}

/// Takes bytes for which there is no room beside what was gathered.
#[inline(never)]
fn take_more<K: Sink>(gathered: &mut Vec<u8>, inner: &mut K, bytes: &[u8]) -> Result<usize, Failed>
    ensures bound { WritesAtMost result bytes.now }
    ensures taken { WriteAppends (append_taken (K.told inner.old) gathered.old.items) (append_taken (K.told inner.new) gathered.new.items) result bytes.now }
    ensures cause { HasCause (K.faults inner.old) (K.faults inner.new) result }
    ensures idle { CountsIdle (K.faults inner.old) (K.faults inner.new) bytes.now result }
    ensures quiet { IfOk result (λ n. 0 < n → K.faults inner.new ≡ K.faults inner.old) }
{
    hand_on(gathered, inner)?;
    if bytes.len() >= gathered.capacity() {
        return inner.write(bytes);
    }
    append(bytes, gathered);
    Ok(bytes.len())
}

impl<K: Sink> Sink for GatheringSink<K> {
    ghost use Rattle.sim_io.specs.Gathering.{gathered_last};

    ghost told = { λ sink. append_taken (K.told sink.inner) sink.gathered };

    ghost handed = { λ sink. K.handed sink.inner };

    ghost faults = { λ sink. K.faults sink.inner };

    fn write(&mut self, bytes: &[u8]) -> Result<usize, Failed> {
        if bytes.len() > self.gathered.capacity() - self.gathered.len() {
            return take_more(&mut self.gathered, &mut self.inner, bytes);
        }
        append(bytes, &mut self.gathered);
        Ok(bytes.len())
    }

    fn flush(&mut self) -> Result<(), Failed> {
        hand_on(&mut self.gathered, &mut self.inner)?;
        self.inner.flush()
    }

    ghost in_order = { λ sink. gathered_last (K.told sink.inner) (K.handed sink.inner) sink.gathered (K.in_order sink.inner) };
}
