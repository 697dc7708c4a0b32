//! A source in memory whose faults are chosen by the numbers of its calls.
ghost use Rattle.std.specs.Prelude.{◌≡◌, ◌≤◌, ◌<◌, ◌↔◌, Some, length, take, Contains, IsErr, IfOk, OnOk};
ghost use Rattle.std.specs.Io.{ReadsAtMost};
ghost use Rattle.std.specs.Io.KnownBytes.{ReadConsumes};
ghost use Rattle.sim_io.specs.Causes.{CountsFailures, HasCause, next_count};
ghost use Rattle.sim_io.specs.Taken.{GivesMore};
ghost use Rattle.sim_io.specs.Memory.{moved_count, KeepsSourceRules};

use crate::streams::failed::Failed;
use crate::streams::source::Source;
use std::marker::Model;

/// Bytes in memory, and the calls that fail.
#[derive(Drop)]
pub struct MemSource {
    bytes: Vec<u8>,
    at: usize,
    fails: Vec<u64>,
    most: usize,
    calls: u64,
    faults: u64,
}

impl Model for MemSource {
    ghost use Rattle.std.specs.Prelude.{◌≤◌, drop, length};
    ghost use Rattle.sim_io.specs.Memory.{SourceView};

    ghost Value = { SourceView };

    ghost view = { λ source. record {
      left = drop source.at source.bytes.items;
      fails = source.fails.items;
      most = source.most;
      calls = source.calls;
      faults = source.faults;
    } };

    ghost invariant = { λ source. (source.at ≤ length source.bytes.items) × (1 ≤ source.most) };
}

impl MemSource {
    /// A source of these bytes. Calls are counted from 1, and those whose numbers are in `fails` fail. A read moves at
    /// most `most` bytes.
    pub fn new(bytes: Vec<u8>, fails: Vec<u64>, most: usize) -> MemSource
        requires { 1 ≤ most }
        ensures { result ≡ record { left = bytes.items; fails = fails.items; most = most; calls = 0; faults = 0 } }
    {
        MemSource {
            bytes,
            at: 0,
            fails,
            most,
            calls: 0,
            faults: 0,
        }
    }
}

impl Source for MemSource {
    ghost left = { λ source. Some source.left };

    ghost faults = { λ source. source.faults };

    fn read(&mut self, into: &mut [u8]) -> Result<usize, Failed>
        ensures bound { ReadsAtMost result into.new }
        ensures taken { ReadConsumes (Some self.old.left) (Some self.new.left) result into.new }
        ensures cause { HasCause self.old.faults self.new.faults result }
        ensures quiet { OnOk result (self.new.faults ≡ self.old.faults) }
        ensures gave { IfOk result (λ n. GivesMore (⟦<MemSource as Source>⟧.gave self.old) (⟦<MemSource as Source>⟧.gave self.new) (take n into.new)) }
        ensures end { IfOk result (λ n. n ≡ 0 → 0 < length into.new → ⟦<MemSource as Source>⟧.is_at_end self.new) }
        ensures calls { self.new.calls ≡ next_count self.old.calls }
        ensures fails { IsErr result ↔ Contains self.old.fails self.new.calls }
        ensures count { IfOk result (λ n. n ≡ moved_count self.old (length into.old)) }
        ensures faults { CountsFailures self.old.faults self.new.faults result }
        ensures rules { KeepsSourceRules self.old self.new }
    {
        self.calls = self.calls.saturating_add(1);
        if self.fails.contains(&self.calls) {
            self.faults = self.faults.saturating_add(1);
            return Err(Failed);
        }
        let (_, left) = self.bytes.split_at(self.at);
        let count = into.len().min(self.most).min(left.len());
        let (piece, _) = left.split_at(count);
        let (prefix, _) = into.split_at_mut(count);
        prefix.copy_from_slice(piece);
        self.at += count;
        Ok(count)
    }
}
