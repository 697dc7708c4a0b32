//! A writer of std as a sink.
ghost use Rattle.std.specs.Prelude.{◌≡◌, ◌<◌, IfOk, OnOk};
ghost use Rattle.std.specs.Io.{WritesAtMost};
ghost use Rattle.sim_io.specs.Causes.{CountsFailures, CountsIdle, CountsWrites, HasCause};
ghost use Rattle.sim_io.specs.Taken.{Keeps, WriteAppends, told_bytes};

use crate::streams::failed::Failed;
use crate::streams::sink::Sink;
use std::io::Write;

/// A writer, and how often it failed or took nothing, up to the last value of that count. What the writer itself may keep
/// back counts as handed on.
#[derive(Drop)]
pub struct StdSink<W> {
    writer: W,
    faults: u64,
}

impl<W: Write> StdSink<W> {
    /// A sink that hands what it takes to the writer.
    pub fn new(writer: W) -> StdSink<W>
        ensures told { (⟦<StdSink<W> as Sink>⟧.told result).known ≡ W.contents writer }
        ensures handed { (⟦<StdSink<W> as Sink>⟧.handed result).known ≡ W.contents writer }
        ensures faults { ⟦<StdSink<W> as Sink>⟧.faults result ≡ 0 }
    {
        StdSink { writer, faults: 0 }
    }

    /// How often the writer failed or took nothing.
    pub fn faults(&self) -> u64
        ensures { result ≡ ⟦<StdSink<W> as Sink>⟧.faults self.now }
    {
        self.faults
    }

    /// The writer.
    pub fn into_inner(self) -> W
        ensures { W.contents result ≡ (⟦<StdSink<W> as Sink>⟧.told self).known }
    {
        let StdSink { writer, faults: _ } = self;
        writer
    }
}

impl<W: Write> Sink for StdSink<W> {
    ghost use Rattle.sim_io.specs.Gathering.{nothing_back};

    ghost told = { λ sink. told_bytes (W.contents sink.writer) };

    ghost handed = { λ sink. told_bytes (W.contents sink.writer) };

    ghost faults = { λ sink. sink.faults };

    fn write(&mut self, bytes: &[u8]) -> Result<usize, Failed>
        ensures bound { WritesAtMost result bytes.now }
        ensures taken { WriteAppends (⟦<StdSink<W> as Sink>⟧.told self.old) (⟦<StdSink<W> as Sink>⟧.told self.new) result bytes.now }
        ensures cause { HasCause (⟦<StdSink<W> as Sink>⟧.faults self.old) (⟦<StdSink<W> as Sink>⟧.faults self.new) result }
        ensures idle { CountsIdle (⟦<StdSink<W> as Sink>⟧.faults self.old) (⟦<StdSink<W> as Sink>⟧.faults self.new) bytes.now result }
        ensures quiet { IfOk result (λ n. 0 < n → ⟦<StdSink<W> as Sink>⟧.faults self.new ≡ ⟦<StdSink<W> as Sink>⟧.faults self.old) }
        ensures faults { CountsWrites (⟦<StdSink<W> as Sink>⟧.faults self.old) (⟦<StdSink<W> as Sink>⟧.faults self.new) result }
    {
        match self.writer.write(bytes) {
            Ok(0) => {
                self.faults = self.faults.saturating_add(1);
                Ok(0)
            }
            Ok(count) => Ok(count),
            Err(_) => {
                self.faults = self.faults.saturating_add(1);
                Err(Failed)
            }
        }
    }

    fn flush(&mut self) -> Result<(), Failed>
        ensures taken { Keeps (⟦<StdSink<W> as Sink>⟧.told self.old) (⟦<StdSink<W> as Sink>⟧.told self.new) }
        ensures all { OnOk result (Keeps (⟦<StdSink<W> as Sink>⟧.told self.new) (⟦<StdSink<W> as Sink>⟧.handed self.new)) }
        ensures cause { HasCause (⟦<StdSink<W> as Sink>⟧.faults self.old) (⟦<StdSink<W> as Sink>⟧.faults self.new) result }
        ensures quiet { OnOk result (⟦<StdSink<W> as Sink>⟧.faults self.new ≡ ⟦<StdSink<W> as Sink>⟧.faults self.old) }
        ensures faults { CountsFailures (⟦<StdSink<W> as Sink>⟧.faults self.old) (⟦<StdSink<W> as Sink>⟧.faults self.new) result }
    {
        match self.writer.flush() {
            Ok(()) => Ok(()),
            Err(_) => {
                self.faults = self.faults.saturating_add(1);
                Err(Failed)
            }
        }
    }

    ghost in_order = { λ sink. nothing_back (told_bytes (W.contents sink.writer)) };
}
