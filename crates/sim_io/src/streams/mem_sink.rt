//! A sink in memory whose faults are chosen by the numbers of its calls.
ghost use Rattle.std.specs.Prelude.{◌≡◌, ◌≤◌, ◌<◌, ◌↔◌, Some, Ok, [], length, Contains, IsErr, IfOk, OnOk};
ghost use Rattle.std.specs.Io.{WritesAtMost};
ghost use Rattle.sim_io.specs.Causes.{CountsIdle, HasCause, next_count};
ghost use Rattle.sim_io.specs.Memory.{taken_count, faults_after, KeepsSinkRules};
ghost use Rattle.sim_io.specs.Taken.{Keeps, WriteAppends, told_bytes};

use crate::streams::failed::Failed;
use crate::streams::sink::Sink;
use delta_exchange::OutOfMemory;
use std::alloc::Global;
use std::marker::Model;

/// The bytes taken, the room for them, and the calls that fail or take nothing.
#[derive(Drop)]
pub struct MemSink {
    bytes: Vec<u8>,
    room: usize,
    fails: Vec<u64>,
    idle: Vec<u64>,
    most: usize,
    calls: u64,
    faults: u64,
}

impl Model for MemSink {
    ghost use Rattle.std.specs.Prelude.{◌≤◌, vec_len};
    ghost use Rattle.std.specs.Vec.{vec_capacity};
    ghost use Rattle.sim_io.specs.Memory.{SinkView};

    ghost Value = { SinkView };

    ghost view = { λ sink. record {
      taken = sink.bytes.items;
      room = sink.room;
      fails = sink.fails.items;
      idle = sink.idle.items;
      most = sink.most;
      calls = sink.calls;
      faults = sink.faults;
    } };

    ghost invariant = { λ sink. (vec_len sink.bytes ≤ sink.room) × (sink.room ≤ vec_capacity sink.bytes) × (1 ≤ sink.most) };
}

impl MemSink {
    /// An empty sink with room for so many bytes. Calls are counted from 1. Those whose numbers are in `fails` fail, and
    /// those whose numbers are in `idle` take nothing of a piece. A write takes at most `most` bytes.
    pub fn new(
        alloc: Global,
        room: usize,
        fails: Vec<u64>,
        idle: Vec<u64>,
        most: usize,
    ) -> Result<MemSink, OutOfMemory>
        requires { 1 ≤ most }
        ensures { IfOk result (λ sink. sink ≡ record {
          taken = [];
          room = room;
          fails = fails.items;
          idle = idle.items;
          most = most;
          calls = 0;
          faults = 0;
        }) }
    {
        Ok(MemSink {
            bytes: Vec::with_capacity(alloc, room)?,
            room,
            fails,
            idle,
            most,
            calls: 0,
            faults: 0,
        })
    }

    /// What it has taken.
    pub fn bytes(&self) -> &[u8]
        ensures { result.now ≡ self.now.taken }
    {
        self.bytes.as_slice()
    }
}

impl Sink for MemSink {
    ghost use Rattle.sim_io.specs.Gathering.{nothing_back};

    ghost told = { λ sink. told_bytes (Some sink.taken) };

    ghost handed = { λ sink. told_bytes (Some sink.taken) };

    ghost faults = { λ sink. sink.faults };

    fn write(&mut self, bytes: &[u8]) -> Result<usize, Failed>
        ensures bound { WritesAtMost result bytes.now }
        ensures taken { WriteAppends (told_bytes (Some self.old.taken)) (told_bytes (Some self.new.taken)) result bytes.now }
        ensures cause { HasCause self.old.faults self.new.faults result }
        ensures idle { CountsIdle self.old.faults self.new.faults bytes.now result }
        ensures quiet { IfOk result (λ n. 0 < n → self.new.faults ≡ self.old.faults) }
        ensures calls { self.new.calls ≡ next_count self.old.calls }
        ensures fails { IsErr result ↔ Contains self.old.fails self.new.calls }
        ensures none { Contains self.old.idle self.new.calls → IfOk result (λ n. n ≡ 0) }
        ensures count { ¬ (Contains self.old.idle self.new.calls) → IfOk result (λ n. n ≡ taken_count self.old (length bytes.now)) }
        ensures faults { self.new.faults ≡ faults_after self.old.faults result bytes.now }
        ensures rules { KeepsSinkRules self.old self.new }
    {
        self.calls = self.calls.saturating_add(1);
        if self.fails.contains(&self.calls) {
            self.faults = self.faults.saturating_add(1);
            return Err(Failed);
        }
        let free = self.room - self.bytes.len();
        if !bytes.is_empty() && (free == 0 || self.idle.contains(&self.calls)) {
            self.faults = self.faults.saturating_add(1);
            return Ok(0);
        }
        let count = bytes.len().min(self.most).min(free);
        let (prefix, _) = bytes.split_at(count);
        self.bytes.extend_from_slice(prefix).unwrap();
        Ok(count)
    }

    /// It keeps nothing back, and this is none of the calls that are counted.
    fn flush(&mut self) -> Result<(), Failed>
        ensures taken { Keeps (told_bytes (Some self.old.taken)) (told_bytes (Some self.new.taken)) }
        ensures all { OnOk result (Keeps (told_bytes (Some self.new.taken)) (told_bytes (Some self.new.taken))) }
        ensures cause { HasCause self.old.faults self.new.faults result }
        ensures quiet { OnOk result (self.new.faults ≡ self.old.faults) }
        ensures done { result ≡ Ok tt }
        ensures same { self.new ≡ self.old }
    {
        Ok(())
    }

    ghost in_order = { λ sink. nothing_back (told_bytes (Some sink.taken)) };
}
