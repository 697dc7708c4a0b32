//! A source and a sink that never fail.
ghost use Rattle.std.specs.Prelude.{◌≡◌, None, Some, List, [], ℕ, ◌<◌, Ok, IfOk, OnOk, length, min, take};
ghost use Rattle.std.specs.Io.{ReadsAtMost, WritesAtMost};
ghost use Rattle.std.specs.Io.KnownBytes.{ReadConsumes};
ghost use Rattle.sim_io.specs.Causes.{CountsIdle, HasCause};
ghost use Rattle.sim_io.specs.Taken.{GivesMore, Keeps, WriteAppends, told_bytes};

use crate::streams::failed::Failed;
use crate::streams::sink::Sink;
use crate::streams::source::Source;
use std::marker::Model;

/// Bytes in memory, given without a fault. Contracts see the bytes that are left.
#[derive(Drop)]
pub struct CleanSource {
    bytes: Vec<u8>,
    at: usize,
}

impl Model for CleanSource {
    ghost use Rattle.std.specs.Prelude.{ℕ, List, ◌≤◌, drop, length};

    ghost Value = { List ℕ };

    ghost view = { λ source. drop source.at source.bytes.items };

    ghost invariant = { λ source. source.at ≤ length source.bytes.items };
}

impl CleanSource {
    /// A source of these bytes.
    pub fn new(bytes: Vec<u8>) -> CleanSource
        ensures { result ≡ bytes.items }
    {
        CleanSource { bytes, at: 0 }
    }
}

impl Source for CleanSource {
    ghost left = { λ bytes. Some bytes };

    ghost faults = { λ _. 0 };

    fn read(&mut self, into: &mut [u8]) -> Result<usize, Failed>
        ensures bound { ReadsAtMost result into.new }
        ensures taken { ReadConsumes (Some self.old) (Some self.new) result into.new }
        ensures cause { HasCause 0 0 result }
        ensures quiet { OnOk result (◌≡◌ {A = ℕ} 0 0) }
        ensures gave { IfOk result (λ n. GivesMore (⟦<CleanSource as Source>⟧.gave self.old) (⟦<CleanSource as Source>⟧.gave self.new) (take n into.new)) }
        ensures end { IfOk result (λ n. n ≡ 0 → 0 < length into.new → ⟦<CleanSource as Source>⟧.is_at_end self.new) }
        ensures count { result ≡ Ok (min (length into.old) (length self.old)) }
    {
        let (_, left) = self.bytes.split_at(self.at);
        let count = into.len().min(left.len());
        let (piece, _) = left.split_at(count);
        let (prefix, _) = into.split_at_mut(count);
        prefix.copy_from_slice(piece);
        self.at += count;
        Ok(count)
    }
}

/// Takes each piece whole, keeps no byte and tells none.
#[derive(Clone, Copy, Default)]
pub struct CleanSink;

impl CleanSink {
    /// A sink that never fails.
    pub fn new() -> CleanSink {
        CleanSink
    }
}

impl Sink for CleanSink {
    ghost use Rattle.sim_io.specs.Gathering.{nothing_back};

    ghost told = { λ _. told_bytes None };

    ghost handed = { λ _. told_bytes None };

    ghost faults = { λ _. 0 };

    fn write(&mut self, bytes: &[u8]) -> Result<usize, Failed>
        ensures bound { WritesAtMost result bytes.now }
        ensures taken { WriteAppends (told_bytes None) (told_bytes None) result bytes.now }
        ensures cause { HasCause 0 0 result }
        ensures idle { CountsIdle 0 0 bytes.now result }
        ensures quiet { IfOk result (λ n. 0 < n → ◌≡◌ {A = ℕ} 0 0) }
        ensures whole { result ≡ Ok (length bytes.now) }
    {
        Ok(bytes.len())
    }

    fn flush(&mut self) -> Result<(), Failed>
        ensures taken { Keeps (told_bytes None) (told_bytes None) }
        ensures all { OnOk result (Keeps (told_bytes None) (told_bytes None)) }
        ensures cause { HasCause 0 0 result }
        ensures quiet { OnOk result (◌≡◌ {A = ℕ} 0 0) }
        ensures done { result ≡ Ok tt }
    {
        Ok(())
    }

    ghost in_order = { λ _. nothing_back (told_bytes None) };
}
